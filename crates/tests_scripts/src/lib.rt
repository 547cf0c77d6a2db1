//! The forms that lines of scripts stand for, worked out by hand from the language.
#![tactic(auto)]

#[cfg(test)]
mod forms;
#[cfg(test)]
mod shown;
