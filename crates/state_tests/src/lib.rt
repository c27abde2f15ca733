//! Tests of the text of a seam, over its bytes.
#![tactic(auto)]

#[cfg(test)]
mod restored;
#[cfg(test)]
mod seams;
