//! Tests of replays, runs and crashes of scripts: printed texts, folders of the file system, and what a crash leaves.
#![tactic(auto)]

#[cfg(test)]
mod collection_crashes;
#[cfg(test)]
mod commit_crashes;
#[cfg(test)]
mod compare;
#[cfg(test)]
mod crash_images;
#[cfg(test)]
mod crash_runs;
#[cfg(test)]
mod fixtures;
#[cfg(test)]
mod folder_places;
#[cfg(test)]
mod index_crashes;
#[cfg(test)]
mod machine;
#[cfg(test)]
mod opening_crashes;
#[cfg(test)]
mod places;
#[cfg(test)]
mod replayed_folders;
#[cfg(test)]
mod replays;
#[cfg(test)]
mod runs;
#[cfg(test)]
mod spaces;
#[cfg(test)]
mod stores;
