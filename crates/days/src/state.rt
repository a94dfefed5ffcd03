// The states of a session.
#[derive(Clone, Copy, PartialEq, Eq, Debug)]
pub enum State {
    // No login was answered yet.
    Waiting,
    // The login was accepted.
    Open,
    // The login was rejected, or the session has ended.
    Closed,
}
