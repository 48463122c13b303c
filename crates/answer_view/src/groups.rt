//! Questions by what became of them.
ghost use Rattle.std.specs.Prelude.{◌≡◌};
ghost use Rattle.answer_view.specs.Answered.{group_by, group_of, group_name, groups_of, is_listed, place_of, is_in, count_in};

use crate::answered::Answered;
use net_types::Answer;

/// What became of a question; of one that has no answer before, what it is.
#[derive(Clone, Copy, Debug, PartialEq, Eq)]
pub enum Group {
    /// It held before and fails now.
    FailsNow,
    FailsInBoth,
    /// It failed before and holds now.
    HoldsNow,
    HoldsInBoth,
    /// It fails, and it has no answer before.
    Fails,
    Holds,
}

const COMPARED: [Group; 4] = [
    Group::FailsNow,
    Group::FailsInBoth,
    Group::HoldsNow,
    Group::HoldsInBoth,
];

const ALONE: [Group; 2] = [Group::Fails, Group::Holds];

/// The groups in the order in which they are shown: of questions with an answer before, and of others.
pub(crate) fn groups_of(compared: bool) -> &'static [Group]
    ensures { result.now ≡ groups_of compared }
{
    if compared { &COMPARED } else { &ALONE }
}

/// The name of a group.
pub(crate) fn group_name(group: Group) -> &'static [u8]
    ensures { result.now ≡ group_name group }
{
    match group {
        Group::FailsNow => b"fail now",
        Group::FailsInBoth => b"fail in both",
        Group::HoldsNow => b"hold only now",
        Group::HoldsInBoth => b"hold in both",
        Group::Fails => b"fail",
        Group::Holds => b"hold",
    }
}

/// Whether the questions of the group are shown, and not only counted.
pub(crate) fn is_listed(group: Group) -> bool
    ensures { result ≡ is_listed group }
{
    match group {
        Group::HoldsInBoth => false,
        Group::Holds => false,
        _ => true,
    }
}

fn place_of(group: Group) -> u8
    ensures { result ≡ place_of group }
{
    match group {
        Group::FailsNow => 0,
        Group::FailsInBoth => 1,
        Group::HoldsNow => 2,
        Group::HoldsInBoth => 3,
        Group::Fails => 4,
        Group::Holds => 5,
    }
}

fn group_by(before: Option<Answer>, after: Answer) -> Group
    ensures { result ≡ group_by before after }
{
    match (before, after) {
        (None, Answer::Holds) => Group::Holds,
        (None, Answer::Fails { .. }) => Group::Fails,
        (Some(Answer::Holds), Answer::Holds) => Group::HoldsInBoth,
        (Some(Answer::Holds), Answer::Fails { .. }) => Group::FailsNow,
        (Some(Answer::Fails { .. }), Answer::Holds) => Group::HoldsNow,
        (Some(Answer::Fails { .. }), Answer::Fails { .. }) => Group::FailsInBoth,
    }
}

/// What became of the question.
pub(crate) fn group_of(answered: &Answered) -> Group
    ensures { result ≡ group_of answered.now }
{
    group_by(answered.before, answered.after)
}

/// Whether the question is one of the group.
pub(crate) fn is_in(group: Group, answered: &Answered) -> bool
    ensures { result ≡ is_in group answered.now }
{
    place_of(group_of(answered)) == place_of(group)
}

/// How many questions the group has.
#[tactic(auto, unfolding(crate::specs::Answered::count_in))]
pub(crate) fn count_in(answered: &[Answered], group: Group) -> usize
    ensures { result ≡ count_in answered.now group }
{
    answered.iter().filter(|one| is_in(group, one)).count()
}
