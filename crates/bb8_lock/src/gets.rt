//! The polls of a get, over any home and any user callbacks.

mod home;
mod outside;
mod rows;
mod state;

pub use home::{FirstTry, GetHome, Joining, LetGo, Passed, Returned, Taken, Tried};
pub use outside::Outside;
pub use rows::ask;
pub use state::{Begun, CheckUnderWay, GetState, Next, Settled, Stage};
