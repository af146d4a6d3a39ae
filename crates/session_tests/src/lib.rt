//! Tests of lines and replies: the words of the command line, each request and reply with its exact bytes, and whole
//! runs. They show what no clause says.
#![tactic(auto)]

#[cfg(test)]
mod changed_tests;
#[cfg(test)]
mod reopen_tests;
#[cfg(test)]
mod run_tests;
#[cfg(test)]
mod search_tests;
#[cfg(test)]
mod text_tests;
#[cfg(test)]
mod words_tests;
