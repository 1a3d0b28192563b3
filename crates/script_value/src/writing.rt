//! Writing a script: each of its lines, one after the other.
ghost use Rattle.std.specs.Prelude.{◌≡◌, ◌<◌, ◌≤◌, ◌++◌, ◌∷◌, [], length, map, All, OnOk, IfOk, codes};
ghost use Rattle.std.specs.List.{flat_map, AllByRecursion};
ghost use Rattle.std.specs.Fmt.{decimal};
ghost use Rattle.script_value.specs.Content.{names_of, sizes_of, client_view};
ghost use Rattle.script_value.specs.ScriptText.{call_line, table_text_1, table_text_2, hash_words, call_words, client_words, stop_words, item_word, schedule_words, content_words, header_words, table_words, name_at, item_client, spaced_items, line_of, line_text, text_of, text_of_script};

use crate::body::Body;
use crate::script::Script;
use indexmap::IndexMap;
use kv_block::Key;
use map_model::{Call, Calls, Item, Items};
use node_words::Geometry;
use spelling::{Name, Text, Writer};
use std::alloc::{AllocError, Global};

// `hash KEY HEX`
fn put_hash_line(out: &mut Writer, key: &Key, hash: u64) -> Result<(), AllocError>
    ensures { OnOk result (out.new.items ≡ out.old.items ++ line_text (hash_words (key.now, hash))) }
{
    out.put(b"hash")?;
    out.put_spaced(key.bytes())?;
    out.push(b' ')?;
    out.put_hex_number(hash)?;
    out.push(b'\n')
}

// `client NAME`
fn put_client_line(out: &mut Writer, name: &[u8]) -> Result<(), AllocError>
    ensures { OnOk result (out.new.items ≡ out.old.items ++ line_text (codes "client" ∷ name.now ∷ [])) }
{
    out.put(b"client ")?;
    out.put(name)?;
    out.push(b'\n')
}

/// Appends the line of a call, without its line feed. It fails only for want of memory.
pub fn put_call(out: &mut Writer, call: &Call) -> Result<(), AllocError>
    ensures { OnOk result (out.new.items ≡ out.old.items ++ call_line call.now) }
{
    match call {
        Call::Insert { key, value } => {
            out.put(b"insert")?;
            out.put_spaced(key.bytes())?;
            out.put_spaced(value.bytes())
        }
        Call::Search { key } => {
            out.put(b"search")?;
            out.put_spaced(key.bytes())
        }
        Call::Update { key, value } => {
            out.put(b"update")?;
            out.put_spaced(key.bytes())?;
            out.put_spaced(value.bytes())
        }
        Call::Delete { key } => {
            out.put(b"delete")?;
            out.put_spaced(key.bytes())
        }
        Call::Resize { key } => {
            out.put(b"resize")?;
            out.put_spaced(key.bytes())
        }
    }
}

// The lines of calls.
fn put_call_lines(out: &mut Writer, calls: &Calls) -> Result<(), AllocError>
    ensures { OnOk result (out.new.items ≡ out.old.items ++ text_of (map call_words calls.now.items)) }
{
    for call in calls.iter() {
        put_call(out, &call)?;
        out.push(b'\n')?;
    }
    Ok(())
}

// A client's line, and those of its calls.
fn put_client(out: &mut Writer, name: &[u8], calls: &Calls) -> Result<(), AllocError>
    ensures { OnOk result (out.new.items ≡ out.old.items ++ text_of (client_words (name.now, calls.now.items))) }
{
    put_client_line(out, name)?;
    put_call_lines(out, calls)
}

// `stop NAME N`
fn put_stop_line(out: &mut Writer, name: &[u8], stop: u64) -> Result<(), AllocError>
    ensures { OnOk result (out.new.items ≡ out.old.items ++ line_text (codes "stop" ∷ name.now ∷ decimal stop ∷ [])) }
{
    out.put(b"stop ")?;
    out.put(name)?;
    out.put_spaced_number(stop)?;
    out.push(b'\n')
}

// Line 1.
fn put_header(out: &mut Writer, version: u32) -> Result<(), AllocError>
    ensures { OnOk result (out.new.items ≡ out.old.items ++ line_text (header_words version)) }
{
    out.put(b"race")?;
    out.put_spaced_number(u64::from(version))?;
    out.push(b'\n')
}

// Line 2 of version 1.
fn put_table_1(out: &mut Writer, geometry: &Geometry, tries: u32) -> Result<(), AllocError>
    ensures { OnOk result (out.new.items ≡ out.old.items ++ table_text_1 (sizes_of geometry.now tries)) }
{
    out.put_word_number(b"table groups=", geometry.groups as u64)?;
    out.put_word_number(b" depth=", geometry.max_depth as u64)?;
    out.put_word_number(b" words=", geometry.words)?;
    out.put_word_number(b" tries=", tries as u64)?;
    out.push(b'\n')
}

// Line 2 of version 2.
fn put_table_2(out: &mut Writer, geometry: &Geometry, tries: u32) -> Result<(), AllocError>
    ensures { OnOk result (out.new.items ≡ out.old.items ++ table_text_2 (sizes_of geometry.now tries)) }
{
    out.put_word_number(b"table groups=", geometry.groups as u64)?;
    out.put_word_number(b" depth=", geometry.max_depth as u64)?;
    out.put_word_number(b" first=", geometry.first_depth as u64)?;
    out.put_word_number(b" nodes=", geometry.nodes as u64)?;
    out.put_word_number(b" words=", geometry.words)?;
    out.put_word_number(b" tries=", tries as u64)?;
    out.push(b'\n')
}

impl Body {
    // Appends an item.
    fn put_item(&self, out: &mut Writer, item: &Item) -> Result<(), AllocError>
        requires { item_client item.now < length self.now.clients }
        ensures { OnOk result (out.new.items ≡ out.old.items ++ item_word (names_of self.now) item.now) }
    {
        match item {
            Item::Verbs { client, count: 1 } => out.put(self.name(*client)),
            Item::Verbs { client, count } => {
                out.put(self.name(*client))?;
                out.put_word_number(b"*", u64::from(*count))
            }
            Item::Call { client } => {
                out.put(self.name(*client))?;
                out.push(b'!')
            }
        }
    }

    // Appends items, each behind a space.
    fn put_items(&self, out: &mut Writer, items: &[Item]) -> Result<(), AllocError>
        requires { AllByRecursion (λ item. item_client item < length self.now.clients) items.now }
        ensures { OnOk result (out.new.items ≡ out.old.items ++ spaced_items (names_of self.now) items.now) }
    {
        for item in items {
            out.push(b' ')?;
            self.put_item(out, item)?;
        }
        Ok(())
    }
}

impl Body {
    // `schedule ITEM ITEM ..`
    #[tactic(auto, using(crate::proofs::Joined::schedule_line))]
    fn put_schedule_line(&self, out: &mut Writer, items: &Items) -> Result<(), AllocError>
        requires { AllByRecursion (λ item. item_client item < length self.now.clients) items.now.items }
        ensures { OnOk result (out.new.items ≡ out.old.items ++ line_text (schedule_words (names_of self.now) items.now.items)) }
    {
        out.put(b"schedule")?;
        self.put_items(out, items.as_slice())?;
        out.push(b'\n')
    }

    // The lines of the listed hashes.
    fn put_hashes(&self, out: &mut Writer) -> Result<(), AllocError>
        ensures { OnOk result (out.new.items ≡ out.old.items ++ text_of (map hash_words self.now.hashes)) }
    {
        for (key, hash) in self.hashes().pairs() {
            put_hash_line(out, key, *hash)?;
        }
        Ok(())
    }

    // The lines of the schedule.
    fn put_schedules(&self, out: &mut Writer) -> Result<(), AllocError>
        requires { AllByRecursion (AllByRecursion (λ item. item_client item < length self.now.clients)) self.now.schedules }
        ensures { OnOk result (out.new.items ≡ out.old.items ++ text_of (map (schedule_words (names_of self.now)) self.now.schedules)) }
    {
        for items in self.schedules() {
            self.put_schedule_line(out, items)?;
        }
        Ok(())
    }

    // The lines of the stops.
    fn put_stops(&self, out: &mut Writer) -> Result<(), AllocError>
        requires { AllByRecursion (λ e. e.0 < length self.now.clients) self.now.stops }
        ensures { OnOk result (out.new.items ≡ out.old.items ++ text_of (map (stop_words (names_of self.now)) self.now.stops)) }
    {
        let mut stops = self.stops().iter();
        while let Some((client, stop)) = stops.next() {
            put_stop_line(out, self.name(*client), *stop)?;
        }
        Ok(())
    }
}

// The lines of the clients.
#[tactic(auto, using(crate::proofs::Joined::text_of_append))]
fn put_clients(out: &mut Writer, clients: &IndexMap<Name, Calls>) -> Result<(), AllocError>
    ensures { OnOk result (out.new.items ≡ out.old.items ++ text_of (flat_map client_words (map client_view clients.now.entries))) }
{
    let mut rest = clients.iter();
    while let Some((name, calls)) = rest.next() {
        put_client(out, name.bytes(), calls)?;
    }
    Ok(())
}

impl Body {
    // All lines behind line 2, but for `end`.
    #[tactic(auto, using(crate::proofs::Joined::text_of_append))]
    fn put_content(&self, out: &mut Writer) -> Result<(), AllocError>
        requires stops { AllByRecursion (λ e. e.0 < length self.now.clients) self.now.stops }
        requires items { AllByRecursion (AllByRecursion (λ item. item_client item < length self.now.clients)) self.now.schedules }
        ensures { OnOk result (out.new.items ≡ out.old.items ++ text_of (content_words self.now)) }
    {
        self.put_hashes(out)?;
        put_clients(out, self.named_calls())?;
        self.put_stops(out)?;
        self.put_schedules(out)
    }
}

// Line 2.
fn put_table(
    out: &mut Writer,
    version: u32,
    geometry: &Geometry,
    tries: u32,
) -> Result<(), AllocError>
    requires least { 1 ≤ version }
    requires most { version ≤ 2 }
    ensures { OnOk result (out.new.items ≡ out.old.items ++ line_text (table_words version (sizes_of geometry.now tries))) }
{
    if version == 1 {
        put_table_1(out, geometry, tries)
    } else {
        put_table_2(out, geometry, tries)
    }
}

/// The text of a script.
pub fn script_text(alloc: Global, script: &Script) -> Result<Text, AllocError>
    ensures { IfOk result (λ text. text.items ≡ text_of_script script.now) }
{
    let mut text = Writer::new(alloc);
    put_header(&mut text, script.version())?;
    put_table(
        &mut text,
        script.version(),
        &script.geometry(),
        script.tries(),
    )?;
    script.body().put_content(&mut text)?;
    text.put(b"end\n")?;
    Ok(text.into_text())
}
