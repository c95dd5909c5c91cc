//! Lines whose words stand between spaces, as requests that are rewritten, read, and answered over
//! sorted sets that stand here.

mod found;
mod further;
mod numbers;
mod ranges;
mod traps;

use found::{write_answer, write_call};
use std::alloc::Global;
use std::process::Abort;
use std::test::Fail;
use zq_dialect::{read_call, rewritten};
use zq_resp::{Reader, Request, write_reply};
use zq_words::{Command, Refused};

const SYNTAX: &str = "-ERR syntax error\r\n";

const WORDS: &str = "-ERR wrong number of arguments\r\n";

const SCORE: &str = "-ERR score is not a whole number in range\r\n";

const WHOLE: &str = "-ERR value is not an integer\r\n";

const BOUND: &str = "-ERR min or max is not a bound\r\n";

const NEGATIVE: &str = "-ERR count is negative\r\n";

/// The request of a line's words.
fn request(alloc: Global, line: &str) -> Result<Request, Fail> {
    let mut words = Vec::new(alloc);
    for word in line.split(' ') {
        words.push(word)?;
    }
    let count = words.len();
    let mut bytes = Vec::new(alloc);
    bytes.extend_from_slice(format!(in alloc; "*{count}\r\n")?.as_bytes())?;
    for word in words {
        let length = word.len();
        bytes.extend_from_slice(format!(in alloc; "${length}\r\n{word}\r\n")?.as_bytes())?;
    }
    let Ok(mut requests) = Reader::new().feed(alloc, bytes.as_slice()) else {
        return Err("no request".into());
    };
    Ok(requests.pop().ok_or("no request")?)
}

/// What is answered to a request, or the error that refuses it.
fn answer(alloc: Global, request: &Request) -> Result<Vec<u8>, Fail> {
    let mut out = Vec::new(alloc);
    match Command::read(alloc, request) {
        Ok(command) => write_answer(&mut out, command.kind())?,
        Err(Refused::Unknown) => match read_call(request) {
            Ok(Some(call)) => write_call(&mut out, &call)?,
            Ok(None) => write_reply(&mut out, &Refused::Unknown.reply())?,
            Err(refused) => write_reply(&mut out, &refused.reply())?,
        },
        Err(refused) => write_reply(&mut out, &refused.reply())?,
    }
    Ok(out)
}

/// The same of a request that is rewritten first.
fn answer_to(alloc: Global, line: &str) -> Result<Vec<u8>, Fail> {
    let request = request(alloc, line)?;
    match rewritten(alloc, &request) {
        Ok(Some(request)) => answer(alloc, &request),
        Ok(None) => answer(alloc, &request),
        Err(refused) => refusal(alloc, refused),
    }
}

fn refusal(alloc: Global, refused: Refused) -> Result<Vec<u8>, Fail> {
    let mut out = Vec::new(alloc);
    write_reply(&mut out, &refused.reply())?;
    Ok(out)
}

fn each_is_answered(rt: &impl Abort, alloc: Global, rows: &[(&str, &str)]) -> Result<(), Fail> {
    for (line, expected) in rows {
        let answer = answer_to(alloc, line)?;
        assert!(rt; answer.as_slice() == expected.as_bytes(), "at {line}");
    }
    Ok(())
}
