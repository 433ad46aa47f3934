//! The phases of judgement.

/// What a dense message is judged by, in order: a fault of an earlier phase is reported before those of later ones.
#[derive(Clone, Copy, Debug, PartialEq, Eq)]
pub enum Phase {
    /// The wire form of the message and of its DenseInfos.
    Wire,
    /// The counts of its columns, the form of its tags, and that there is one DenseInfo at most.
    Structure,
    /// The ranges of its values, and that the table has its texts.
    Values,
    /// The weights of its nodes.
    Weights,
}
