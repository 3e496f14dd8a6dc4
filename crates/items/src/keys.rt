// A key, and behind it the words that the key asks for.
ghost use Rattle.std.specs.Prelude.{◌≡◌};
ghost use Rattle.splits.specs.Splits.{words};
ghost use Rattle.splits.specs.Readings.{read_found};
ghost use Rattle.items.specs.Items.{sole_number, tempo_item, pickup_item, meter_item, point_item, meter_point, meter_over, rate_item, beats_item, key_item, item_of};

use crate::{Item, Reason, values};
use splits::found::Found;
use splits::{found, scan};

// The one number behind a key.
fn sole(behind: Found<'_>) -> Result<u32, Reason>
    ensures { result ≡ sole_number (read_found behind.entry) }
{
    match behind {
        Found::One(word) => values::number(word),
        Found::Two(_, _) | Found::Other => Err(Reason::Words),
    }
}

// A tempo point: a beat and a tempo.
fn point(place: &[u8], word: &[u8]) -> Result<Item, Reason>
    ensures { result ≡ point_item place.now word.now }
{
    let beat = values::beat(place)?;
    let bits = values::tempo(word)?;
    Ok(Item::TempoPoint(beat, bits))
}

// The tempo where there are no points, or a point.
fn tempo(behind: Found<'_>) -> Result<Item, Reason>
    ensures { result ≡ tempo_item (read_found behind.entry) }
{
    match behind {
        Found::One(word) => {
            let bits = values::tempo(word)?;
            Ok(Item::Tempo(bits))
        }
        Found::Two(place, word) => point(place, word),
        Found::Other => Err(Reason::Words),
    }
}

fn pickup(behind: Found<'_>) -> Result<Item, Reason>
    ensures { result ≡ pickup_item (read_found behind.entry) }
{
    match behind {
        Found::One(word) => {
            let beat = values::beat(word)?;
            Ok(Item::Pickup(beat))
        }
        Found::Two(_, _) | Found::Other => Err(Reason::Words),
    }
}

// The meter from a bar on, by its two numbers: those before and behind the first slash.
fn meter_over(bar: u32, word: &[u8]) -> Result<Item, Reason>
    ensures { result ≡ meter_over bar word.now }
{
    let slash = scan::until(word, 0, b'/');
    if slash == word.len() {
        return Err(Reason::NotMeter);
    }
    let num = values::number(&word[..slash])?;
    let den = values::number(&word[slash + 1..])?;
    Ok(Item::MeterPoint(bar, num, den))
}

fn meter_point(place: &[u8], word: &[u8]) -> Result<Item, Reason>
    ensures { result ≡ meter_point place.now word.now }
{
    let bar = values::number(place)?;
    meter_over(bar, word)
}

fn meter(behind: Found<'_>) -> Result<Item, Reason>
    ensures { result ≡ meter_item (read_found behind.entry) }
{
    match behind {
        Found::Two(place, word) => meter_point(place, word),
        Found::One(_) | Found::Other => Err(Reason::Words),
    }
}

// Stays: this and `beats` differ in the variant, and a parameter for it would make each call
// as long as the body.
fn rate(behind: Found<'_>) -> Result<Item, Reason>
    ensures { result ≡ rate_item (sole_number (read_found behind.entry)) }
{
    let n = sole(behind)?;
    Ok(Item::Rate(n))
}

fn beats(behind: Found<'_>) -> Result<Item, Reason>
    ensures { result ≡ beats_item (sole_number (read_found behind.entry)) }
{
    let n = sole(behind)?;
    Ok(Item::Beats(n))
}

// What a key and the words behind it say.
fn keyed(key: &[u8], behind: Found<'_>) -> Result<Item, Reason>
    ensures { result ≡ key_item key.now (read_found behind.entry) }
{
    if found::same(key, b"rate") {
        return rate(behind);
    }
    if found::same(key, b"beats") {
        return beats(behind);
    }
    if found::same(key, b"tempo") {
        return tempo(behind);
    }
    if found::same(key, b"pickup") {
        return pickup(behind);
    }
    if found::same(key, b"meter") {
        return meter(behind);
    }
    Err(Reason::Unknown)
}

// What a line without a comment says; a line without words says nothing.
pub fn of_body(line: &[u8]) -> Result<Option<Item>, Reason>
    ensures { result ≡ item_of (words line.now) }
{
    let first = scan::blanks(line, 0);
    if first == line.len() {
        return Ok(None);
    }
    let end = scan::word(line, first);
    let item = keyed(&line[first..end], found::words(line, end))?;
    Ok(Some(item))
}
