//! Texts: the fault of a policy's text, and how each is told.
ghost use Rattle.hikebox_c.specs.Calls.{Comes};
ghost use Rattle.hikebox_c.specs.Texts.{SaysFault, TellsText};

use sched_handle::Status;
use sched_plan_hint::plan_fault;
use std::alloc::Global;

#[unsafe(no_mangle)]
pub extern "C" fn hikebox_policy_fault(
    alloc: Global,
    json: &[u8],
    text: &mut [u8],
    length: &mut usize,
) -> u32
    ensures { Comes (SaysFault json.now) (TellsText result text.old text.new length.old length.new) }
{
    let fault = fault_text(alloc, json);
    tell_text(fault, text, length)
}

// The text of the first fault, or an empty one where there is none.
fn fault_text(alloc: Global, json: &[u8]) -> Result<String, Status>
    ensures { SaysFault json.now result }
{
    match plan_fault(alloc, json) {
        Ok(None) => Ok(String::new(alloc)),
        Ok(Some(fault)) => match fault.text(alloc) {
            Ok(text) => Ok(text),
            Err(_) => Err(Status::NoMemory),
        },
        Err(_) => Err(Status::NoMemory),
    }
}

// The number of this answer: 0 where it is a text that has room, which is then written there, its length in any case.
pub(crate) fn tell_text(answer: Result<String, Status>, room: &mut [u8], size: &mut usize) -> u32
    ensures { TellsText result room.old room.new size.old size.new answer }
{
    let text = match answer {
        Ok(text) => text,
        Err(status) => return status.code(),
    };
    let bytes = text.as_bytes();
    *size = bytes.len();
    if room.len() < bytes.len() {
        return Status::NoRoom.code();
    }
    room[..bytes.len()].copy_from_slice(bytes);
    0
}
