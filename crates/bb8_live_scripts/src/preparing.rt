//! A customizer that a script configures.

use bb8::{CustomizeConnection, Moment};
use bb8_trials::{Number, Refused, ServerConnection};
use futures::task::Poll;

/// The error of a preparation.
const UNPREPARED: u64 = 100;

/// Prepares nothing, or numbers the connections that it prepares from 1 on, in their field. Then
/// the first poll of each preparation is pending, and those with a number above `most` fail.
#[derive(Drop)]
pub struct Preparer {
    pub most: Option<u64>,
    pub prepared: Number,
}

impl CustomizeConnection<ServerConnection, Refused> for Preparer {
    type Acquiring = bool;

    fn on_acquire(&self, _connection: &mut ServerConnection) -> bool {
        self.most.is_none()
    }

    fn poll_acquire(
        &self,
        connection: &mut ServerConnection,
        acquiring: &mut bool,
        _moment: Moment,
    ) -> Poll<Result<(), Refused>> {
        let Some(most) = self.most else {
            return Poll::Ready(Ok(()));
        };
        if !*acquiring {
            *acquiring = true;
            return Poll::Pending;
        }
        connection.field = self.prepared.count();
        Poll::Ready(if connection.field > most {
            Err(Refused(UNPREPARED))
        } else {
            Ok(())
        })
    }
}
