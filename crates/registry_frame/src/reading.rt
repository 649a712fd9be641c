ghost use Rattle.std.specs.Prelude.{◌≡◌, ◌<◌, ◌≤◌, ◌^◌, ◌↔◌, ◌∷◌, ℕ, All, IfOk, IsErrOf, IsTrue, List, MatchResult, OnOk, decimal, length, option_map};
ghost use Rattle.json.specs.Reads.{token_of};
ghost use Rattle.json.specs.Token as json_token;
ghost use Rattle.json.specs.Token.{Token as JsonToken};
ghost use Rattle.wire_base.specs.Ranges.{IsOp};
ghost use Rattle.wire_base.specs.declared.row.Op.{Op as OpOf};
ghost use Rattle.wire_base.specs.declared.row.Row.{Row};
ghost use Rattle.registry_frame.specs.BodyOf.{IsBodyOf, IsStoredOp, IsStoredRow};
ghost use Rattle.registry_frame.specs.Tokens.{IsNoMemory, body_tokens, field_tokens, name_in, number_in, removal_tokens, row_tokens, string_in};

use crate::{BodyError, body};
use json::{Reader, Scratch, Token};
use std::alloc::Global;
use std::str;
use wire_base::{Epoch, MAX_KEY, MAX_MOMENT, MAX_PATH, MAX_PLACE, Moment, Op, Row, Text};

/// The operations of which these bytes are the body.
///
/// They are read as JSON, their fields by place. What was read is spelled again, and only bytes that are this very
/// spelling are a body.
pub fn read_body(alloc: Global, bytes: &[u8]) -> Result<Vec<Op>, BodyError>
    ensures says { IfOk result (λ ops. IsBodyOf ops.items bytes.now) }
    ensures refused_only_where_no_body { IsErrOf result BodyError.NotABody →
        (ops : List OpOf) → ¬ (IsBodyOf ops bytes.now) }
    ensures in_range { IfOk result (λ ops. All IsOp ops.items) }
{
    let Ok(text) = str::from_utf8(bytes) else {
        return Err(BodyError::NotABody);
    };
    let ops = read_text(alloc, text)?;
    if ops.is_empty() {
        return Err(BodyError::NotABody);
    }
    let spelled = body(alloc, &ops)?;
    if spelled.bytes() != bytes {
        return Err(BodyError::NotABody);
    }
    Ok(ops)
}

/// Of a body these are the operations; of any other text something or nothing.
fn read_text(alloc: Global, text: &str) -> Result<Vec<Op>, BodyError>
    ensures reads { (ops : List OpOf) → IsBodyOf ops text.now →
        MatchResult result (λ read. read.items ≡ ops) IsNoMemory }
    ensures in_range { IfOk result (λ ops. All IsOp ops.items) }
{
    let mut scratch = Scratch::new(alloc);
    let mut reader = Reader::new(text, &mut scratch)?;
    read_operations(alloc, &mut reader)
}

fn read_operations(alloc: Global, reader: &mut Reader<'_>) -> Result<Vec<Op>, BodyError>
    ensures reads { (ops : List OpOf) → All IsStoredOp ops → reader.old ≡ body_tokens ops →
        MatchResult result (λ read. read.items ≡ ops) IsNoMemory }
    ensures in_range { IfOk result (λ ops. All IsOp ops.items) }
{
    let mut ops = Vec::new(alloc);
    skip_token(reader);
    'operations: while !reader.take_end_array() {
        ops.push(read_operation(alloc, reader)?)?;
    }
    Ok(ops)
}

fn read_operation(alloc: Global, reader: &mut Reader<'_>) -> Result<Op, BodyError>
    ensures reads { (op : OpOf) (rest : List JsonToken) → IsStoredOp op → reader.old ≡ json_token.begin_object ∷ field_tokens op rest →
        MatchResult result (λ read. (read ≡ op) × (reader.new ≡ rest)) IsNoMemory }
    ensures in_range { IfOk result IsOp }
    ensures shorter { OnOk result (length reader.new < length reader.old) }
{
    skip_token(reader);
    let op = read_fields(alloc, reader)?;
    if !is_in_range(&op) {
        return Err(BodyError::NotABody);
    }
    Ok(op)
}

fn is_in_range(op: &Op) -> bool
    ensures { IsTrue result ↔ IsOp op.now }
{
    match op {
        Op::Set(row) => {
            row.key.bytes().len() <= MAX_KEY
                && row.path.bytes().len() <= MAX_PATH
                && row.offset <= MAX_PLACE
                && row.changed.0 <= MAX_MOMENT
        }
        Op::Remove(key) => key.bytes().len() <= MAX_KEY,
    }
}

fn read_fields(alloc: Global, reader: &mut Reader<'_>) -> Result<Op, BodyError>
    ensures reads { (op : OpOf) (rest : List JsonToken) → IsStoredOp op → reader.old ≡ field_tokens op rest →
        MatchResult result (λ read. (read ≡ op) × (reader.new ≡ rest)) IsNoMemory }
    ensures shorter { OnOk result (length reader.new < length reader.old) }
{
    let first = read_name(reader)?;
    if first == "key" {
        return read_removal(alloc, reader);
    }
    if first == "epoch" {
        return read_row(alloc, reader, Moment(0));
    }
    let changed = read_number(reader)?;
    skip_token(reader);
    read_row(alloc, reader, Moment(changed))
}

fn read_removal(alloc: Global, reader: &mut Reader<'_>) -> Result<Op, BodyError>
    ensures reads { (key : List ℕ) (rest : List JsonToken) → reader.old ≡ removal_tokens key rest →
        MatchResult result (λ read. (read ≡ Op.Remove key) × (reader.new ≡ rest)) IsNoMemory }
    ensures no_longer { length reader.new ≤ length reader.old }
{
    let key = read_string(alloc, reader)?;
    skip_token(reader);
    skip_token(reader);
    skip_token(reader);
    Ok(Op::Remove(key))
}

fn read_row(alloc: Global, reader: &mut Reader<'_>, changed: Moment) -> Result<Op, BodyError>
    ensures reads { (row : Row) (rest : List JsonToken) → IsStoredRow row → row.changed ≡ changed → reader.old ≡ row_tokens row rest →
        MatchResult result (λ read. (read ≡ Op.Set row) × (reader.new ≡ rest)) IsNoMemory }
    ensures no_longer { length reader.new ≤ length reader.old }
{
    let epoch = read_epoch(reader)?;
    skip_token(reader);
    let key = read_string(alloc, reader)?;
    skip_token(reader);
    let offset = read_number(reader)?;
    skip_token(reader);
    skip_token(reader);
    skip_token(reader);
    let path = read_string(alloc, reader)?;
    skip_token(reader);
    Ok(Op::Set(Row {
        key,
        path,
        epoch,
        offset,
        changed,
    }))
}

fn read_epoch(reader: &mut Reader<'_>) -> Result<Epoch, BodyError>
    ensures reads { (epoch : ℕ) (rest : List JsonToken) → epoch < 2 ^ 32 → reader.old ≡ json_token.number (decimal epoch) ∷ rest →
        MatchResult result (λ read. (read.0 ≡ epoch) × (reader.new ≡ rest)) (λ _. ⊥) }
    ensures no_longer { length reader.new ≤ length reader.old }
{
    let number = read_number(reader)?;
    if number > u32::MAX as u64 {
        return Err(BodyError::NotABody);
    }
    Ok(Epoch(number as u32))
}

fn read_number(reader: &mut Reader<'_>) -> Result<u64, BodyError>
    ensures reads { (number : ℕ) (rest : List JsonToken) → number < 2 ^ 64 → reader.old ≡ json_token.number (decimal number) ∷ rest →
        MatchResult result (λ read. (read ≡ number) × (reader.new ≡ rest)) (λ _. ⊥) }
    ensures no_longer { length reader.new ≤ length reader.old }
{
    let Some(token) = reader.next() else {
        return Err(BodyError::NotABody);
    };
    let Some(digits) = number_in(token) else {
        return Err(BodyError::NotABody);
    };
    match digits.parse() {
        Ok(number) => Ok(number),
        Err(_) => Err(BodyError::NotABody),
    }
}

fn read_string(alloc: Global, reader: &mut Reader<'_>) -> Result<Text, BodyError>
    ensures reads { (text : List ℕ) (rest : List JsonToken) → reader.old ≡ json_token.string text ∷ rest →
        MatchResult result (λ read. (read ≡ text) × (reader.new ≡ rest)) IsNoMemory }
    ensures no_longer { length reader.new ≤ length reader.old }
{
    let Some(token) = reader.next() else {
        return Err(BodyError::NotABody);
    };
    let Some(text) = string_in(token) else {
        return Err(BodyError::NotABody);
    };
    Ok(Text::from_string(String::from_str(alloc, text)?))
}

fn read_name<'a>(reader: &mut Reader<'a>) -> Result<&'a str, BodyError>
    ensures reads { (name : List ℕ) (rest : List JsonToken) → reader.old ≡ json_token.key name ∷ rest →
        MatchResult result (λ read. (read.now ≡ name) × (reader.new ≡ rest)) (λ _. ⊥) }
    ensures shorter { OnOk result (length reader.new < length reader.old) }
{
    let Some(token) = reader.next() else {
        return Err(BodyError::NotABody);
    };
    match name_in(token) {
        Some(name) => Ok(name),
        None => Err(BodyError::NotABody),
    }
}

fn skip_token(reader: &mut Reader<'_>)
    ensures passed { (token : JsonToken) (rest : List JsonToken) → reader.old ≡ token ∷ rest → reader.new ≡ rest }
    ensures no_longer { length reader.new ≤ length reader.old }
{
    reader.next();
}

fn number_in<'a>(token: Token<'a>) -> Option<&'a str>
    ensures { option_map (λ text. text.now) result ≡ number_in (token_of token.entry) }
{
    match token {
        Token::Number(text) => Some(text),
        _ => None,
    }
}

fn string_in<'a>(token: Token<'a>) -> Option<&'a str>
    ensures { option_map (λ text. text.now) result ≡ string_in (token_of token.entry) }
{
    match token {
        Token::String(text) => Some(text),
        _ => None,
    }
}

fn name_in<'a>(token: Token<'a>) -> Option<&'a str>
    ensures { option_map (λ text. text.now) result ≡ name_in (token_of token.entry) }
{
    match token {
        Token::Key(text) => Some(text),
        _ => None,
    }
}
