// What a base holds, in words that can be printed. Nothing of files or standard output belongs here.
#![tactic(auto)]

mod answer;
mod lists;
pub mod report;
mod words;
