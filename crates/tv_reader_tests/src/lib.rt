//! Tests of readers of an index: what they show, their warmers, searches, and stored documents.
#![tactic(auto)]

#[cfg(test)]
mod compare;
#[cfg(test)]
mod docs;
#[cfg(test)]
mod fixtures;
#[cfg(test)]
mod locks;
#[cfg(test)]
mod reloads;
#[cfg(test)]
mod searchers;
#[cfg(test)]
mod searches;
#[cfg(test)]
mod warmers;
