// The fronts of an example's input, of which each is the input of a run of its own. The column `ends` says where each
// request ends in the input, and its reply in what the console gets: `ends=86:114,172:264`. To a front those requests
// are answered that are whole, and a rest is a bad request.
use crate::columns::{column, number_of};
use crate::example::Example;
use crate::not_run::NotRun;
use std::alloc::Global;

const BAD_REQUEST: &[u8] =
    b"HTTP/1.1 400 Bad Request\r\nContent-Type: application/json\r\nContent-Length: 70\r\nConnection: close\r\n\r\n\
    {\"messages\":[{\"code\":\"1\",\"messageType\":\"Error\",\"text\":\"bad request\"}]}";

/// A front of the input, and what the console gets.
#[derive(Drop)]
pub(crate) struct Front {
    pub input: Vec<u8>,
    pub console: Vec<u8>,
}

/// Where a request and its reply end.
#[derive(Clone, Copy)]
struct Ends {
    request: usize,
    reply: usize,
}

/// The fronts that are shorter than the input, where the column is there.
pub(crate) fn fronts(alloc: Global, example: &Example<'_>) -> Result<Vec<Front>, NotRun> {
    let mut fronts = Vec::new(alloc);
    let Some(list) = column(example.columns, "ends") else {
        return Ok(fronts);
    };
    let mut whole = Ends {
        request: 0,
        reply: 0,
    };
    for ends in list.split(',') {
        let next = ends_of(ends)?;
        for count in whole.request..next.request {
            fronts.push(front_of(alloc, example, count, whole)?)?;
        }
        whole = next;
    }
    if whole.request != example.input.len() || whole.reply != example.console.len() {
        return Err(NotRun::Unreadable);
    }
    Ok(fronts)
}

/// The front of so many bytes, behind whole requests that end there.
fn front_of(
    alloc: Global,
    example: &Example<'_>,
    count: usize,
    whole: Ends,
) -> Result<Front, NotRun> {
    let input = example.input.get(..count).ok_or(NotRun::Unreadable)?;
    let replies = example
        .console
        .as_bytes()
        .get(..whole.reply)
        .ok_or(NotRun::Unreadable)?;
    let mut console = replies.to_vec(alloc)?;
    if count > whole.request {
        console.extend_from_slice(BAD_REQUEST)?;
    }
    Ok(Front {
        input: input.to_vec(alloc)?,
        console,
    })
}

fn ends_of(text: &str) -> Result<Ends, NotRun> {
    let (request, reply) = text.split_once(':').ok_or(NotRun::Unreadable)?;
    Ok(Ends {
        request: number_of(request)? as usize,
        reply: number_of(reply)? as usize,
    })
}
