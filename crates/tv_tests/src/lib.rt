//! Tests of what no clause says: values from outside, printed texts, threads, folders of the file system, and that
//! each call succeeds where there is memory.
#![tactic(auto)]

#[cfg(test)]
mod base;
#[cfg(test)]
mod bench;
#[cfg(test)]
mod calls;
#[cfg(test)]
mod checksum;
#[cfg(test)]
mod closing;
#[cfg(test)]
mod collections;
#[cfg(test)]
mod compare;
#[cfg(test)]
mod composites;
#[cfg(test)]
mod crashes;
#[cfg(test)]
mod desks;
#[cfg(test)]
mod empty;
#[cfg(test)]
mod entries;
#[cfg(test)]
mod error_texts;
#[cfg(test)]
mod executor;
#[cfg(test)]
mod fixtures;
#[cfg(test)]
mod folder_faults;
#[cfg(test)]
mod folder_steps;
#[cfg(test)]
mod folders;
#[cfg(test)]
mod footers;
#[cfg(test)]
mod formats;
#[cfg(test)]
mod future_results;
#[cfg(test)]
mod index;
#[cfg(test)]
mod indexes;
#[cfg(test)]
mod inventory;
#[cfg(test)]
mod lists;
#[cfg(test)]
mod managed;
#[cfg(test)]
mod moved_folders;
#[cfg(test)]
mod ram;
#[cfg(test)]
mod registers;
#[cfg(test)]
mod sealed_files;
#[cfg(test)]
mod stamps;
#[cfg(test)]
mod usages;
#[cfg(test)]
mod watches;
#[cfg(test)]
mod writers;
#[cfg(test)]
mod written;
