//! The lines of replies.

ghost use Rattle.std.specs.Prelude.{◌≡◌, ◌∷◌, ◌++◌, [], OnOk, codes, map};
ghost use Rattle.std.specs.Fmt.{decimal, signed_decimal};
ghost use Rattle.std.specs.List.{flat_map};
ghost use Rattle.script.specs.Lines.{spaced};
ghost use Rattle.script.specs.Replies.{attribute_words, entry_words, extent_words, figure_words, kind_word, kind_words, owner_words, reply_line, size_words, stat_words, times_words, usage_words};
ghost use Rattle.script.specs.Words.{given_word, text_word, AddsText};

use crate::words::{NOT_GIVEN, mode_word, push_data, push_text};
use model::{Attributes, Entries, Entry, Extent, FileType, Names, Reply, Stat, Time, Usage};
use std::alloc::{AllocError, Global};

/// Adds a reply's line.
pub(crate) fn push_reply(alloc: Global, line: &mut Vec<u8>, reply: &Reply) -> Result<(), AllocError>
    ensures { OnOk result (AddsText line.old line.new (reply_line reply.now)) }
{
    match reply {
        Reply::Done => line.extend_from_slice(b"ok"),
        Reply::Fd(fd) => push_number(alloc, line, b"fd ", u64::from(*fd)),
        Reply::Opened { fd, stat } => {
            push_number(alloc, line, b"opened fd ", u64::from(*fd))?;
            push_stat(alloc, line, stat)
        }
        Reply::Data(data) => {
            line.extend_from_slice(b"data ")?;
            push_data(line, data.as_bytes())
        }
        Reply::Wrote(count) => push_number(alloc, line, b"wrote ", u64::from(*count)),
        Reply::At(offset) => push_number(alloc, line, b"at ", *offset),
        Reply::Text(text) => {
            line.extend_from_slice(b"text ")?;
            push_text(line, text.as_bytes())
        }
        Reply::Names(names) => {
            line.extend_from_slice(b"names")?;
            push_names(line, names)
        }
        Reply::Entries(entries) => {
            line.extend_from_slice(b"entries")?;
            push_entries(alloc, line, entries)
        }
        Reply::Snaps(names) => {
            line.extend_from_slice(b"snaps")?;
            push_names(line, names)
        }
        Reply::Stat(stat) => {
            line.extend_from_slice(b"stat")?;
            push_stat(alloc, line, stat)
        }
        Reply::Attributes { stat, attributes } => {
            line.extend_from_slice(b"attr")?;
            push_stat(alloc, line, stat)?;
            push_attributes(alloc, line, attributes)
        }
        Reply::Extent(extent) => {
            line.extend_from_slice(b"extent")?;
            push_extent(alloc, line, extent)
        }
        Reply::Space {
            blocks,
            free,
            pledged,
        } => {
            push_number(alloc, line, b"blocks ", u64::from(*blocks))?;
            push_number(alloc, line, b" free ", u64::from(*free))?;
            push_number(alloc, line, b" pledged ", *pledged)
        }
        Reply::Usage(usage) => {
            line.extend_from_slice(b"usage")?;
            push_usage(alloc, line, usage)
        }
        Reply::Refused(errno) => {
            line.extend_from_slice(b"err ")?;
            line.extend_from_slice(errno.name().as_bytes())
        }
    }
}

/// Adds words, and a number behind them.
fn push_number(
    alloc: Global,
    line: &mut Vec<u8>,
    words: &[u8],
    number: u64,
) -> Result<(), AllocError>
    ensures { OnOk result (AddsText line.old line.new (words.now ++ decimal number)) }
{
    let text = number.to_string(alloc)?;
    push_word(line, words, text.as_bytes())
}

/// Adds words, and one behind them.
fn push_word(line: &mut Vec<u8>, words: &[u8], word: &[u8]) -> Result<(), AllocError>
    ensures { OnOk result (AddsText line.old line.new (words.now ++ word.now)) }
{
    line.extend_from_slice(words)?;
    line.extend_from_slice(word)
}

/// Adds names, each a word.
fn push_names(line: &mut Vec<u8>, names: &Names) -> Result<(), AllocError>
    ensures { OnOk result (AddsText line.old line.new (spaced (map text_word names.now))) }
{
    for name in names.as_slice() {
        line.extend_from_slice(b" ")?;
        push_text(line, name.as_slice())?;
    }
    Ok(())
}

/// Adds names with what is told of each.
fn push_entries(alloc: Global, line: &mut Vec<u8>, entries: &Entries) -> Result<(), AllocError>
    ensures { OnOk result (AddsText line.old line.new (spaced (flat_map entry_words entries.now))) }
{
    for entry in entries.as_slice() {
        push_entry(alloc, line, entry)?;
    }
    Ok(())
}

/// Adds a name, its cookie and what it names.
fn push_entry(alloc: Global, line: &mut Vec<u8>, entry: &Entry) -> Result<(), AllocError>
    ensures { OnOk result (AddsText line.old line.new (spaced (entry_words entry.now))) }
{
    line.extend_from_slice(b" ")?;
    push_text(line, entry.name.as_bytes())?;
    push_number(alloc, line, b" ", entry.cookie)?;
    push_figures(alloc, line, &entry.stat)
}

/// Adds what a name names.
fn push_figures(alloc: Global, line: &mut Vec<u8>, stat: &Stat) -> Result<(), AllocError>
    ensures { OnOk result (AddsText line.old line.new (spaced (figure_words stat.now))) }
{
    push_number(alloc, line, b" ", u64::from(stat.number))?;
    push_kind_word(line, stat.kind)?;
    line.extend_from_slice(b" ")?;
    line.extend_from_slice(&mode_word(stat.mode))?;
    push_number(alloc, line, b" ", u64::from(stat.links))?;
    push_number(alloc, line, b" ", stat.size)
}

/// Adds what of a file is stored.
fn push_extent(alloc: Global, line: &mut Vec<u8>, extent: &Extent) -> Result<(), AllocError>
    ensures { OnOk result (AddsText line.old line.new (spaced (extent_words extent.now))) }
{
    push_number(alloc, line, b" blocks ", u64::from(extent.blocks))?;
    push_place(alloc, line, b" data ", extent.data)?;
    push_place(alloc, line, b" hole ", extent.hole)
}

/// Adds words, and a place behind them where there is one.
fn push_place(
    alloc: Global,
    line: &mut Vec<u8>,
    words: &[u8],
    place: Option<u64>,
) -> Result<(), AllocError>
    ensures { OnOk result (AddsText line.old line.new (words.now ++ given_word decimal place)) }
{
    match place {
        Some(place) => push_number(alloc, line, words, place),
        None => push_word(line, words, NOT_GIVEN),
    }
}

/// Adds how much room there is.
fn push_usage(alloc: Global, line: &mut Vec<u8>, usage: &Usage) -> Result<(), AllocError>
    ensures { OnOk result (AddsText line.old line.new (spaced (usage_words usage.now))) }
{
    push_number(alloc, line, b" blocks ", u64::from(usage.blocks))?;
    push_number(alloc, line, b" free ", u64::from(usage.free))?;
    push_number(alloc, line, b" reserved ", usage.reserved)?;
    push_number(alloc, line, b" inodes ", u64::from(usage.inodes))?;
    push_number(alloc, line, b" taken ", u64::from(usage.taken))
}

/// Adds what stands somewhere.
fn push_stat(alloc: Global, line: &mut Vec<u8>, stat: &Stat) -> Result<(), AllocError>
    ensures { OnOk result (AddsText line.old line.new (spaced (stat_words stat.now))) }
{
    push_kind(alloc, line, stat)?;
    push_mode_and_size(alloc, line, stat)
}

fn push_kind(alloc: Global, line: &mut Vec<u8>, stat: &Stat) -> Result<(), AllocError>
    ensures { OnOk result (AddsText line.old line.new (spaced (kind_words stat.now))) }
{
    push_number(alloc, line, b" number ", u64::from(stat.number))?;
    line.extend_from_slice(b" kind")?;
    push_kind_word(line, stat.kind)
}

/// Adds what attributes have beside the mode.
fn push_attributes(
    alloc: Global,
    line: &mut Vec<u8>,
    attributes: &Attributes,
) -> Result<(), AllocError>
    ensures { OnOk result (AddsText line.old line.new
        (spaced (attribute_words attributes.now))) }
{
    push_owners_and_times(alloc, line, attributes)?;
    push_number(alloc, line, b" generation ", attributes.generation)
}

fn push_owners_and_times(
    alloc: Global,
    line: &mut Vec<u8>,
    attributes: &Attributes,
) -> Result<(), AllocError>
    ensures { OnOk result (AddsText line.old line.new
        (spaced (owner_words attributes.now ++ times_words attributes.now))) }
{
    push_owner_and_group(alloc, line, attributes)?;
    push_times(alloc, line, attributes)
}

fn push_owner_and_group(
    alloc: Global,
    line: &mut Vec<u8>,
    attributes: &Attributes,
) -> Result<(), AllocError>
    ensures { OnOk result (AddsText line.old line.new (spaced (owner_words attributes.now))) }
{
    push_number(alloc, line, b" owner ", u64::from(attributes.owner))?;
    push_number(alloc, line, b" group ", u64::from(attributes.group))
}

fn push_times(alloc: Global, line: &mut Vec<u8>, attributes: &Attributes) -> Result<(), AllocError>
    ensures { OnOk result (AddsText line.old line.new (spaced (times_words attributes.now))) }
{
    push_time(alloc, line, b" data ", attributes.modified)?;
    push_time(alloc, line, b" status ", attributes.changed)
}

/// Adds words, and a time behind them.
fn push_time(alloc: Global, line: &mut Vec<u8>, words: &[u8], time: Time) -> Result<(), AllocError>
    ensures { OnOk result (AddsText line.old line.new
        (words.now ++ signed_decimal time.seconds ++ codes " " ++ decimal time.nanoseconds)) }
{
    let seconds = time.seconds.to_string(alloc)?;
    push_word(line, words, seconds.as_bytes())?;
    push_number(alloc, line, b" ", u64::from(time.nanoseconds.count()))
}

/// Adds the word of a kind behind a space.
fn push_kind_word(line: &mut Vec<u8>, kind: FileType) -> Result<(), AllocError>
    ensures { OnOk result (AddsText line.old line.new (spaced (kind_word kind ∷ []))) }
{
    push_word(line, b" ", kind_word(kind))
}

fn push_mode_and_size(alloc: Global, line: &mut Vec<u8>, stat: &Stat) -> Result<(), AllocError>
    ensures { OnOk result (AddsText line.old line.new (spaced (size_words stat.now))) }
{
    line.extend_from_slice(b" mode ")?;
    line.extend_from_slice(&mode_word(stat.mode))?;
    push_number(alloc, line, b" links ", u64::from(stat.links))?;
    push_number(alloc, line, b" size ", stat.size)
}

fn kind_word(kind: FileType) -> &'static [u8]
    ensures { result.now ≡ kind_word kind }
{
    match kind {
        FileType::File => b"file",
        FileType::Dir => b"dir",
        FileType::Link => b"link",
    }
}
