//! Many answers as one number.

use crate::sites::call::called;
use crate::sites::given::{Trial, last_word_of};
use crate::sites::stop::Stop;
use doc_page_parts::heap::String;

/// FNV-1a of 64 bits: where it begins, and what it multiplies by (the Internet-Draft on FNV, section 5).
const OFFSET: u64 = 0xcbf2_9ce4_8422_2325;

const PRIME: u64 = 0x0000_0100_0000_01b3;

/// `CALL ; CALL ; ..`: makes the calls, and answers FNV-1a of their answers with a LF behind each.
pub fn digested(trial: &mut Trial, calls: &str) -> Result<String, Stop> {
    let value = digest_of(trial, calls)?;
    Ok(format!(in trial.heap; "{value:016x}")?)
}

/// `CALL ; CALL ; ..`: makes the calls, and answers what the last does.
pub fn last_of(trial: &mut Trial, calls: &str) -> Result<String, Stop> {
    match calls.rsplit_once(" ; ") {
        Some((before, last)) => {
            digest_of(trial, before)?;
            answer_to(trial, last)
        }
        None => answer_to(trial, calls),
    }
}

fn answer_to(trial: &mut Trial, call: &str) -> Result<String, Stop> {
    let (name, given) = last_word_of(call);
    called(trial, name, given)
}

/// The number of what calls answer.
fn digest_of(trial: &mut Trial, calls: &str) -> Result<u64, Stop> {
    let mut value = OFFSET;
    for call in calls.split(" ; ") {
        value = with_answer(trial, value, call)?;
    }
    Ok(value)
}

fn with_answer(trial: &mut Trial, value: u64, call: &str) -> Result<u64, Stop> {
    let answer = answer_to(trial, call)?;
    let value = with_line(value, &answer);
    drop(answer);
    Ok(value)
}

fn with_line(value: u64, line: &str) -> u64 {
    let mut value = value;
    for byte in line.bytes() {
        value = with_byte(value, byte);
    }
    with_byte(value, b'\n')
}

fn with_byte(value: u64, byte: u8) -> u64 {
    (value ^ u64::from(byte)).wrapping_mul(PRIME)
}
