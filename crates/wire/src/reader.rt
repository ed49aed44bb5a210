//! One frame after another from borrowed bytes.
ghost use Rattle.std.specs.Prelude.{◌≡◌, ◌+◌, ◌≤◌, length};
ghost use Rattle.wire.specs.Reading.{head_of, version_check, whole, form_at, read_by};
ghost use Rattle.wire.specs.Frames.{read_call};
ghost use Rattle.wire.specs.Reports.{read_report};

use crate::bytes::half;
use crate::framed::Framed;
use crate::frames::CallFrame;
use faults::FrameFault;
use types::Report;

/// The length that the next frame announces; none at the end of the bytes.
fn head_of(b: &[u8]) -> Result<Option<u16>, FrameFault>
    ensures { result ≡ head_of b.now }
{
    if b.is_empty() {
        return Ok(None);
    }
    if b.len() < 4 {
        return Err(FrameFault::Short);
    }
    let announced = half(b, 0);
    if b.len() < announced as usize + 2 {
        return Err(FrameFault::Short);
    }
    Ok(Some(announced))
}

fn check_version(b: &[u8], announced: u16) -> Result<(), FrameFault>
    requires { 4 ≤ length b.now }
    ensures { result ≡ version_check b.now announced }
{
    if announced < 2 {
        return Err(FrameFault::Length);
    }
    if b[2] == 1 {
        Ok(())
    } else {
        Err(FrameFault::Version)
    }
}

/// What a whole frame says that announces so many bytes behind its length.
fn whole<F: Framed>(b: &[u8], announced: u16) -> Result<F, FrameFault>
    requires { (4 ≤ length b.now) × (announced + 2 ≤ length b.now) }
    ensures { result ≡ whole b.now announced (form_at F.kind_told F.length_of F.said b.now) }
{
    check_version(b, announced)?;
    let kind = F::kind(b[3])?;
    if announced != F::announced(kind) {
        return Err(FrameFault::Length);
    }
    Ok(F::read(b, kind))
}

/// A reader holds the bytes that it has not passed over yet.
#[derive(Drop)]
pub struct FrameReader<'a> {
    rest: &'a [u8],
}

impl<'a> FrameReader<'a> {
    pub fn new(input: &'a [u8]) -> FrameReader<'a>
        ensures { result.rest.now ≡ input.now }
    {
        FrameReader { rest: input }
    }

    /// How many bytes are left.
    pub fn bytes_left(&self) -> usize
        ensures { result ≡ length self.now.rest.now }
    {
        self.rest.len()
    }

    /// The next frame; none at the end of the bytes.
    fn next_frame<F: Framed>(&mut self) -> Result<Option<F>, FrameFault>
        ensures answer { result ≡ (read_by F.kind_told F.length_of F.said self.old.rest.now).answer }
        ensures rest { self.new.rest.now ≡ (read_by F.kind_told F.length_of F.said self.old.rest.now).rest }
    {
        let b = self.rest;
        let Some(announced) = head_of(b)? else {
            return Ok(None);
        };
        let (_, rest) = b.split_at(announced as usize + 2);
        self.rest = rest;
        whole(b, announced).map(Some)
    }

    /// The next frame as a call's; none at the end of the bytes.
    pub fn next_call(&mut self) -> Result<Option<CallFrame>, FrameFault>
        ensures answer { result ≡ (read_call self.old.rest.now).answer }
        ensures rest { self.new.rest.now ≡ (read_call self.old.rest.now).rest }
    {
        self.next_frame()
    }

    /// The next frame as a report's; none at the end of the bytes.
    pub fn next_report(&mut self) -> Result<Option<Report>, FrameFault>
        ensures answer { result ≡ (read_report self.old.rest.now).answer }
        ensures rest { self.new.rest.now ≡ (read_report self.old.rest.now).rest }
    {
        self.next_frame()
    }
}
