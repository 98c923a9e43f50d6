//! Scripts of pipe operations, over a pipe for one thread.
ghost use Rattle.std.specs.Prelude.{◌≡◌, IfOk, OnOk};
ghost use Rattle.sync_base.specs.Pipe.{PipeState};
ghost use Rattle.sync_base.specs.PlainPipe.{Shows};
ghost use Rattle.scripts.specs.PipeScript.{pipe_language, answered, Writes, Reads};
ghost use Rattle.scripts.specs.PipeLine.{opened_by, IsAnswered, asked_by};

use crate::answer_text::{push_read_answer, push_write_answer};
use crate::pipe_line::{Opening, PipeOp, op_at, opening_at};
use crate::script::{Script, is_too_long};
use std::alloc::{AllocError, Global};
use sync_base::{Fault, Mode, PlainPipe};

/// A pipe script while it runs.
#[derive(Drop)]
pub struct PipeScript {
    pipe: PlainPipe,
    /// Room for the bytes of the longest write so far.
    room: Vec<u8>,
    /// Room for the bytes of a read, in stream mode.
    joined: Vec<u8>,
}

impl Script for PipeScript {
    ghost State = { PipeState };

    ghost language = { pipe_language };

    ghost stands_for = { λ script s. Shows script.pipe s };

    fn open(alloc: Global, line: &[u8]) -> Result<Option<Self>, AllocError> {
        let Some(opening) = opening_at(line) else {
            return Ok(None);
        };
        let Ok(pipe) = open_pipe(alloc, opening) else {
            return Err(AllocError);
        };
        let room = Vec::new(alloc);
        let joined = Vec::new(alloc);
        Ok(Some(PipeScript { pipe, room, joined }))
    }

    fn answer_first<'t>(
        &mut self,
        text: &'t [u8],
        output: &mut Vec<u8>,
    ) -> Result<Option<&'t [u8]>, AllocError> {
        let Some((op, rest)) = op_at(text, &mut self.room)? else {
            return Ok(None);
        };
        if is_too_long(text, rest) {
            return Ok(None);
        }
        answer_op(&mut self.pipe, &mut self.joined, op, output)?;
        Ok(Some(rest))
    }

    fn push_closing_line(&self, _output: &mut Vec<u8>) -> Result<(), AllocError> {
        Ok(())
    }
}

/// The pipe that the first line asks for.
fn open_pipe(alloc: Global, opening: Opening) -> Result<PlainPipe, Fault>
    ensures { IfOk result (λ pipe. Shows pipe (opened_by opening)) }
{
    match opening.mode {
        Mode::Message => PlainPipe::new(alloc, opening.limit),
        Mode::Stream => PlainPipe::new_stream(alloc, opening.limit),
    }
}

/// Does what a line asks for, and writes the answer.
fn answer_op(
    pipe: &mut PlainPipe,
    joined: &mut Vec<u8>,
    op: PipeOp<'_>,
    output: &mut Vec<u8>,
) -> Result<(), AllocError>
    ensures { (s : PipeState) → Shows pipe.old s → OnOk result
        (IsAnswered (answered s (asked_by op.entry)) pipe.new output.old.items output.new.items) }
{
    match op {
        PipeOp::Write { writer, bytes } => answer_write(pipe, writer, bytes, output),
        PipeOp::Read { most } => answer_read(pipe, joined, most, output),
        PipeOp::Hangup => {
            pipe.hangup();
            output.extend_from_slice(b"ok\n")
        }
    }
}

fn answer_write(
    pipe: &mut PlainPipe,
    writer: u64,
    bytes: &[u8],
    output: &mut Vec<u8>,
) -> Result<(), AllocError>
    ensures { (s : PipeState) → Shows pipe.old s → OnOk result
        (IsAnswered (answered s (Writes writer bytes.now))
        pipe.new output.old.items output.new.items) }
{
    match pipe.write(writer, bytes) {
        Ok(answer) => push_write_answer(output, answer),
        Err(Fault::TooBig) => output.extend_from_slice(b"too big\n"),
        Err(_) => Err(AllocError),
    }
}

fn answer_read(
    pipe: &mut PlainPipe,
    joined: &mut Vec<u8>,
    most: u64,
    output: &mut Vec<u8>,
) -> Result<(), AllocError>
    ensures { (s : PipeState) → Shows pipe.old s → OnOk result
        (IsAnswered (answered s (Reads most)) pipe.new output.old.items output.new.items) }
{
    match pipe.peek(most, joined) {
        Ok(answer) => push_read_answer(output, answer)?,
        Err(Fault::BadCount) => return output.extend_from_slice(b"bad count\n"),
        Err(_) => return Err(AllocError),
    }
    pipe.pass(most);
    Ok(())
}
