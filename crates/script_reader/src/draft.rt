//! What has been read of a script, and a step for each line.
ghost use Rattle.std.specs.Prelude.{◌≡◌, ◌≤◌, ◌<◌, None, Ok, OnOk, false, not};
ghost use Rattle.std.specs.Option.{option_map};
ghost use Rattle.std.specs.List.{list_all};
ghost use Rattle.spelling.specs.Words.{parts_after, parts_at, is_empty};
ghost use Rattle.script_reader.specs.Rules.{misplaced, after_call, insert_step, search_step, update_step, delete_step, resize_step, call_key, call_pair, command_step, words_step, line_step, is_printable};
ghost use Rattle.script_reader.specs.Gives.{Gives};

use crate::command::Command;
use crate::fault::{Halt, ScriptFault, ScriptKind};
use crate::limits::MOST_CALLS;
use crate::lines::{take_client, take_hash, take_schedule, take_stop};
use kv_block::{Key, Value};
use map_model::Call;
use script_value::Body;
use spelling::{cut, one_word, read_key, read_value, two_words};
use std::alloc::{AllocError, Global};

// What has been read of the lines behind line 2.
#[derive(Drop)]
pub struct Draft {
    /// How many clients there may be.
    pub most: u32,
    /// How many call lines there were.
    pub calls: u32,
    pub body: Body,
}

// Whether lines follow.
#[derive(Clone, Copy, Debug, PartialEq, Eq)]
pub enum Step {
    More,
    End,
}

impl Draft {
    ghost use Rattle.std.specs.Prelude.{IfOk, IfErr};
    ghost use Rattle.script_value.specs.Content.{no_content};
    ghost use Rattle.script_reader.specs.Drafts.{reading_of, step_told};

    // Nothing read yet, of a script that may have so many clients. It fails only for want of memory.
    pub fn new(alloc: Global, most: u32) -> Result<Draft, ScriptFault>
        ensures empty { IfOk result (λ draft. draft ≡ record { most = most; calls = 0; body = no_content }) }
        ensures wanting { IfErr result (λ fault. fault ≡ ScriptFault.OutOfMemory) }
    {
        let Ok(body) = Body::new(alloc) else {
            return Err(ScriptFault::OutOfMemory);
        };
        Ok(Draft {
            most,
            calls: 0,
            body,
        })
    }

    // Why the line of a command may not stand here.
    fn misplaced(&self, command: Command) -> Option<ScriptKind>
        ensures { result ≡ misplaced self.now.body command }
    {
        let no_client = self.body.has_no_client();
        let no_stop = self.body.has_no_stop();
        let no_schedule = self.body.has_no_schedule();
        match command {
            Command::Hash if no_client => None,
            Command::Client if no_stop && no_schedule => None,
            Command::Insert | Command::Search | Command::Update | Command::Delete | Command::Resize
                if !no_client && no_stop && no_schedule => { None }
            Command::Stop | Command::Schedule | Command::End if no_client => {
                Some(ScriptKind::Client)
            }
            Command::Stop if no_schedule => None,
            Command::Schedule | Command::End => None,
            _ => Some(ScriptKind::Word),
        }
    }

    // The key of a call line.
    fn take_key(&self, words: Option<&[u8]>) -> Result<Key, Halt>
        ensures key { Gives (λ key. key) result (call_key self.now.calls (parts_after 32 (option_map (λ rest. rest.now) words.entry))) }
        ensures room { OnOk result (self.now.calls < 65536) }
    {
        let Some(key) = one_word(words) else {
            return Err(Halt::Refused(ScriptKind::Word));
        };
        if self.calls >= MOST_CALLS {
            return Err(Halt::Refused(ScriptKind::TooLong));
        }
        match read_key(key) {
            Some(key) => Ok(key),
            None => Err(Halt::Refused(ScriptKind::Key)),
        }
    }

    // The key and the value of a call line.
    fn take_pair(&self, words: Option<&[u8]>) -> Result<(Key, Value), Halt>
        ensures pair { Gives (λ pair. pair) result (call_pair self.now.calls (parts_after 32 (option_map (λ rest. rest.now) words.entry))) }
        ensures room { OnOk result (self.now.calls < 65536) }
    {
        let Some((key, value)) = two_words(words) else {
            return Err(Halt::Refused(ScriptKind::Word));
        };
        if self.calls >= MOST_CALLS {
            return Err(Halt::Refused(ScriptKind::TooLong));
        }
        let Some(key) = read_key(key) else {
            return Err(Halt::Refused(ScriptKind::Key));
        };
        match read_value(value) {
            Some(value) => Ok((key, value)),
            None => Err(Halt::Refused(ScriptKind::Value)),
        }
    }

    fn add_call(&mut self, call: Call) -> Result<(), AllocError>
        requires some { is_empty self.old.body.clients ≡ false }
        requires room { self.old.calls < 65536 }
        ensures added { OnOk result (reading_of self.new ≡ after_call (reading_of self.old) call) }
        ensures most { self.new.most ≡ self.old.most }
    {
        self.body.add_call(call)?;
        self.calls += 1;
        Ok(())
    }

    // `insert KEY VALUE`
    fn take_insert(&mut self, words: Option<&[u8]>) -> Result<(), Halt>
        requires { is_empty self.old.body.clients ≡ false }
        ensures read { Gives (λ _. reading_of self.new) result (insert_step (reading_of self.old) (parts_after 32 (option_map (λ rest. rest.now) words.entry))) }
        ensures most { self.new.most ≡ self.old.most }
    {
        let (key, value) = self.take_pair(words)?;
        self.add_call(Call::Insert { key, value })?;
        Ok(())
    }

    // `search KEY`
    fn take_search(&mut self, words: Option<&[u8]>) -> Result<(), Halt>
        requires { is_empty self.old.body.clients ≡ false }
        ensures read { Gives (λ _. reading_of self.new) result (search_step (reading_of self.old) (parts_after 32 (option_map (λ rest. rest.now) words.entry))) }
        ensures most { self.new.most ≡ self.old.most }
    {
        let key = self.take_key(words)?;
        self.add_call(Call::Search { key })?;
        Ok(())
    }

    // `update KEY VALUE`
    fn take_update(&mut self, words: Option<&[u8]>) -> Result<(), Halt>
        requires { is_empty self.old.body.clients ≡ false }
        ensures read { Gives (λ _. reading_of self.new) result (update_step (reading_of self.old) (parts_after 32 (option_map (λ rest. rest.now) words.entry))) }
        ensures most { self.new.most ≡ self.old.most }
    {
        let (key, value) = self.take_pair(words)?;
        self.add_call(Call::Update { key, value })?;
        Ok(())
    }

    // `delete KEY`
    fn take_delete(&mut self, words: Option<&[u8]>) -> Result<(), Halt>
        requires { is_empty self.old.body.clients ≡ false }
        ensures read { Gives (λ _. reading_of self.new) result (delete_step (reading_of self.old) (parts_after 32 (option_map (λ rest. rest.now) words.entry))) }
        ensures most { self.new.most ≡ self.old.most }
    {
        let key = self.take_key(words)?;
        self.add_call(Call::Delete { key })?;
        Ok(())
    }

    // `resize KEY`
    fn take_resize(&mut self, words: Option<&[u8]>) -> Result<(), Halt>
        requires { is_empty self.old.body.clients ≡ false }
        ensures read { Gives (λ _. reading_of self.new) result (resize_step (reading_of self.old) (parts_after 32 (option_map (λ rest. rest.now) words.entry))) }
        ensures most { self.new.most ≡ self.old.most }
    {
        let key = self.take_key(words)?;
        self.add_call(Call::Resize { key })?;
        Ok(())
    }

    // A line whose first word is the command.
    fn take_command(
        &mut self,
        alloc: Global,
        command: Command,
        words: Option<&[u8]>,
    ) -> Result<Step, Halt>
        requires placed { misplaced self.old.body command ≡ None }
        requires few { self.old.most ≤ 64 }
        ensures read { Gives (λ step. step_told (reading_of self.new) step) result (command_step self.old.most (reading_of self.old) command (parts_after 32 (option_map (λ rest. rest.now) words.entry))) }
        ensures most { self.new.most ≡ self.old.most }
        ensures ended { result ≡ Ok Step.End → reading_of self.new ≡ reading_of self.old }
    {
        match command {
            Command::Hash => take_hash(&mut self.body, words)?,
            Command::Client => take_client(&mut self.body, alloc, self.most, words)?,
            Command::Insert => self.take_insert(words)?,
            Command::Search => self.take_search(words)?,
            Command::Update => self.take_update(words)?,
            Command::Delete => self.take_delete(words)?,
            Command::Resize => self.take_resize(words)?,
            Command::Stop => take_stop(&mut self.body, words)?,
            Command::Schedule => take_schedule(&mut self.body, alloc, words)?,
            Command::End => {
                return match words {
                    None => Ok(Step::End),
                    Some(_) => Err(Halt::Refused(ScriptKind::Word)),
                };
            }
        }
        Ok(Step::More)
    }
    // A line by its words.
    fn take_words(&mut self, alloc: Global, line: &[u8]) -> Result<Step, Halt>
        requires { self.old.most ≤ 64 }
        ensures read { Gives (λ step. step_told (reading_of self.new) step) result (words_step self.old.most (reading_of self.old) (parts_at 32 line.now)) }
        ensures most { self.new.most ≡ self.old.most }
        ensures ended { result ≡ Ok Step.End → reading_of self.new ≡ reading_of self.old }
    {
        let (first, words) = cut(b' ', line);
        let Some(command) = Command::from_word(first) else {
            return Err(Halt::Refused(ScriptKind::Word));
        };
        match self.misplaced(command) {
            None => self.take_command(alloc, command, words),
            Some(kind) => Err(Halt::Refused(kind)),
        }
    }

    // The next line behind line 2.
    pub fn take_line(&mut self, alloc: Global, line: &[u8]) -> Result<Step, Halt>
        requires { self.old.most ≤ 64 }
        ensures read { Gives (λ step. step_told (reading_of self.new) step) result (line_step self.old.most (reading_of self.old) line.now) }
        ensures most { self.new.most ≡ self.old.most }
        ensures ended { result ≡ Ok Step.End → reading_of self.new ≡ reading_of self.old }
    {
        if !all_printable(line) || !has_single_spaces(line) {
            return Err(Halt::Refused(ScriptKind::Word));
        }
        self.take_words(alloc, line)
    }
}

fn is_printable_byte(byte: u8) -> bool
    ensures { result ≡ is_printable byte }
{
    (b' '..=b'~').contains(&byte)
}

fn all_printable(line: &[u8]) -> bool
    ensures { result ≡ list_all is_printable line.now }
{
    line.iter().all(|byte| is_printable_byte(*byte))
}

// Whether no word is empty.
fn has_single_spaces(line: &[u8]) -> bool
    ensures { result ≡ list_all (λ word. not (is_empty word)) (parts_at 32 line.now) }
{
    let mut rest = Some(line);
    while let Some(bytes) = rest {
        let (word, behind) = cut(b' ', bytes);
        if word.is_empty() {
            return false;
        }
        rest = behind;
    }
    true
}
