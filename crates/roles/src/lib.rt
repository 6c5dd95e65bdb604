// Roles: what a record is to the list of open moves, one role for each place (specs/Roles).
#![tactic(auto)]

#[derive(Clone, Copy, Debug, PartialEq, Eq)]
pub enum Role {
    Idle,
    // In a move of its own.
    Kill,
    Timeout,
    Unfold,
    Extrude,
    // In a meeting.
    Sender,
    Receiver,
    // Against a meeting: a ready receive that is no party, and a delimitation of a label of which a ready kill stands in the table.
    Rival,
    Holder,
}
