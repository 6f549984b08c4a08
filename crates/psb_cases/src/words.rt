//! The words of a line: numbers, bytes and kinds of calls.
ghost use Rattle.std.specs.Prelude.{◌≡◌, ◌≢◌, ℕ, ◌<◌, ◌≤◌, ◌^◌, ◌↔◌, ◌⊎◌, [], IsTrue, IfSome, IfNone, IfOk, Ok, length, slice_index, codes, decimal};
ghost use Rattle.hex.specs.Hex.{decode_of};
ghost use Rattle.psb_station.specs.declared.memory.calls.StationCall.{StationCall};
ghost use Rattle.psb_station.specs.declared.call_log.CallKind.{CallKind};
ghost use Rattle.psb_cases.specs.declared.words.Outcome.{Outcome};
ghost use Rattle.psb_cases.specs.Words.{station_word, folder_word, outcome_word};

use crate::stop::Stop;
use backup_cli::read_number;
use psb_station::{CallKind, StationCall};
use std::alloc::Global;

/// What a crash leaves of what is unsynced: nothing, all, or bytes of 0xff.
#[derive(Clone, Copy, Debug, PartialEq, Eq)]
pub enum Outcome {
    Nothing,
    All,
    Filled,
}

/// A number from 1 on.
pub fn read_ordinal(word: &str) -> Option<u64>
    ensures some { IfSome result (λ number. (word.now ≡ decimal number) × (1 ≤ number)) }
    ensures none { IfNone result ((number : ℕ) → 1 ≤ number → number < 2 ^ 64 → word.now ≢ decimal number) }
{
    let number = read_number(word)?;
    if number == 0 {
        return None;
    }
    Some(number)
}

/// The bytes that a word spells: two lower-case digits for each, or `-` for none.
pub fn read_hex(alloc: Global, word: &str) -> Result<Vec<u8>, Stop>
    ensures { IfOk result (λ bytes. ((word.now ≡ codes "-") × (bytes.items ≡ [])) ⊎ (decode_of word.now ≡ Ok bytes.items)) }
{
    if word == "-" {
        return Ok(Vec::new(alloc));
    }
    if word.is_empty() || word.bytes().any(|b| b.is_ascii_uppercase()) {
        return Err(Stop::Outside);
    }
    match hex::decode(alloc, word) {
        Ok(bytes) => Ok(bytes),
        Err(hex::FromHexError::OutOfMemory) => Err(Stop::Memory),
        Err(_) => Err(Stop::Outside),
    }
}

/// The call of a station that a word names.
pub fn read_station_call(word: &str) -> Option<StationCall>
    ensures some { IfSome result (λ kind. word.now ≡ station_word kind) }
    ensures none { IfNone result ((kind : StationCall) → word.now ≢ station_word kind) }
{
    match word {
        "len" => Some(StationCall::Len),
        "read" => Some(StationCall::Read),
        "write" => Some(StationCall::Write),
        "cut" => Some(StationCall::Cut),
        "sync" => Some(StationCall::Sync),
        "join" => Some(StationCall::Join),
        "recv" => Some(StationCall::Recv),
        "send" => Some(StationCall::Send),
        "say" => Some(StationCall::Say),
        _ => None,
    }
}

/// The call of a folder that a word names.
pub fn read_folder_call(word: &str) -> Option<CallKind>
    ensures some { IfSome result (λ kind. word.now ≡ folder_word kind) }
    ensures none { IfNone result ((kind : CallKind) → word.now ≢ folder_word kind) }
{
    match word {
        "list" => Some(CallKind::List),
        "read_piece" => Some(CallKind::ReadPiece),
        "make_folder" => Some(CallKind::MakeFolder),
        "make_file" => Some(CallKind::MakeFile),
        "append" => Some(CallKind::Append),
        _ => None,
    }
}

/// The outcome of a crash that a word names.
pub fn read_outcome(word: &str) -> Option<Outcome>
    ensures some { IfSome result (λ outcome. word.now ≡ outcome_word outcome) }
    ensures none { IfNone result ((outcome : Outcome) → word.now ≢ outcome_word outcome) }
{
    match word {
        "0" => Some(Outcome::Nothing),
        "1" => Some(Outcome::All),
        "2" => Some(Outcome::Filled),
        _ => None,
    }
}
