//! A pool's get: its future, over the polls of `bb8_lock`.

mod future;

pub use bb8_core::internals::Unfit;
pub use bb8_lock::gets::{
    Begun, CheckUnderWay, FirstTry, GetHome, GetState, LetGo, Next, Outside, Passed, Returned,
    Settled, Stage, Taken, Tried,
};
pub use future::GetFuture;
