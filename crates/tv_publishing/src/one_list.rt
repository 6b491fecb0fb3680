//! The rule that all who publish and read keep: there is one list.
ghost use Rattle.tv_publishing.specs.OneList.{IsOneList, nothing_known, PublishesOne, LearnsAll};

use crate::latest::Latest;
use crossbeam_utils::rule::{Outcome, Protocol};
use tv_snapshots::snapshot::Snapshot;

/// What a handle or the publishing side knows of the list, for contracts. No value of it is made.
pub struct Known {
    pub publishes: bool,
    pub list: [Snapshot; 0],
}

/// All know a first part of one list, and the one who publishes knows it whole.
pub struct OneList;

impl Protocol<Latest, Known> for OneList {
    ghost holds = { IsOneList };

    ghost first = { nothing_known };
}

/// One snapshot more is published.
pub struct Publishing;

impl Outcome<Latest, Known> for Publishing {
    ghost then = { PublishesOne };
}

/// A handle learns of all that was published.
pub struct Entering;

impl Outcome<Latest, Known> for Entering {
    ghost then = { LearnsAll };
}
