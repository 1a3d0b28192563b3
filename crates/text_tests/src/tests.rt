//! Texts that are written, and what the readers of a script tell.
mod made;
mod readers;
mod reports;
mod texts;
