//! A page over a sink.

ghost use Rattle.std.specs.Prelude.{◌≡◌, ◌≤◌, [], length, true, false, OnOk, OnErr};
ghost use Rattle.text_page.specs.Pad.{shown, left, room};
ghost use Rattle.text_page.specs.Printing.{Blames, Prints, Sends};
ghost use Rattle.vidi_io.specs.Sink.{Frame};

use crate::pad::Pad;
use crate::page::Page;
use vidi_io::{Failed, Sink};

/// A page over a sink, which pushes what its pad holds when that is full. It is lost once a push has failed. It
/// takes no memory.
#[derive(Drop)]
pub struct Printer<'a, O: Sink> {
    out: &'a mut O,
    pad: &'a mut Pad,
    lost: bool,
}

/// Pushes a piece, unless the sink is lost.
fn send<O: Sink>(out: &mut O, lost: &mut bool, piece: &[u8])
    ensures sends { Sends (O.told out.old) lost.old (O.told out.new) lost.new piece.now }
    ensures blames { Blames (O.faults out.old) lost.old (O.faults out.new) lost.new }
    ensures place { O.place out.new ≡ O.place out.old }
    ensures frame { (f : Frame) → O.has_frame out.old f → O.has_frame out.new f }
{
    if !*lost && out.push(piece).is_err() {
        *lost = true;
    }
}

impl<'a, O: Sink> Printer<'a, O> {
    /// A page of nothing over this sink, with an empty pad.
    pub fn new(out: &'a mut O, pad: &'a mut Pad) -> Printer<'a, O>
        ensures same { result.out.ghost_name ≡ out.entry.ghost_name }
        ensures out { result.out.now ≡ out.old }
        ensures pad { result.pad.now ≡ pad.old }
        ensures found { result.lost ≡ false }
    {
        Printer {
            out,
            pad,
            lost: false,
        }
    }

    /// Pushes what the pad holds.
    fn flush(&mut self)
        ensures prints { Prints (O.told self.old.out.now) (shown self.old.pad.now) self.old.lost
            (O.told self.new.out.now) (shown self.new.pad.now) self.new.lost [] }
        ensures blames { Blames (O.faults self.old.out.now) self.old.lost (O.faults self.new.out.now) self.new.lost }
        ensures empty { shown self.new.pad.now ≡ [] }
        ensures left { left self.new.pad.now ≡ room self.old.pad.now }
        ensures place { O.place self.new.out.now ≡ O.place self.old.out.now }
        ensures frame { (f : Frame) → O.has_frame self.old.out.now f → O.has_frame self.new.out.now f }
        ensures same { self.new.out.ghost_name ≡ self.old.out.ghost_name }
    {
        send(self.out, &mut self.lost, self.pad.as_slice());
        self.pad.clear();
    }

    /// Pushes what the pad holds, and says whether all pushes went through.
    pub fn finish(&mut self) -> Result<(), Failed>
        ensures prints { Prints (O.told self.old.out.now) (shown self.old.pad.now) self.old.lost
            (O.told self.new.out.now) (shown self.new.pad.now) self.new.lost [] }
        ensures blames { Blames (O.faults self.old.out.now) self.old.lost (O.faults self.new.out.now) self.new.lost }
        ensures empty { shown self.new.pad.now ≡ [] }
        ensures ok { OnOk result (self.new.lost ≡ false) }
        ensures err { OnErr result (self.new.lost ≡ true) }
        ensures place { O.place self.new.out.now ≡ O.place self.old.out.now }
        ensures frame { (f : Frame) → O.has_frame self.old.out.now f → O.has_frame self.new.out.now f }
        ensures same { self.new.out.ghost_name ≡ self.old.out.ghost_name }
    {
        self.flush();
        if self.lost {
            return Err(Failed);
        }
        Ok(())
    }
}

impl<'a, O: Sink> Page for Printer<'a, O> {
    ghost use Rattle.std.specs.Prelude.{refl};
    ghost use Rattle.std.proofs.Common.{◌∙◌};
    ghost use Rattle.text_page.specs.PrintingLaws.{blames_nothing, blames_on, prints_nothing, prints_on};

    ghost went = { λ p q text.
        Prints (O.told p.out.now) (shown p.pad.now) p.lost (O.told q.out.now) (shown q.pad.now) q.lost text
        × Blames (O.faults p.out.now) p.lost (O.faults q.out.now) q.lost
        × (O.place q.out.now ≡ O.place p.out.now)
        × ((f : Frame) → O.has_frame p.out.now f → O.has_frame q.out.now f)
        × (q.out.ghost_name ≡ p.out.ghost_name) };

    ghost still = { λ p. (
      prints_nothing (O.told p.out.now) (shown p.pad.now) p.lost,
      blames_nothing (O.faults p.out.now) p.lost,
      refl,
      λ f has. has,
      refl,
    ) };

    ghost onward = { λ p q r a b first second. (
      prints_on (O.told p.out.now) (O.told q.out.now) (O.told r.out.now) (shown p.pad.now) (shown q.pad.now) (shown r.pad.now)
          p.lost q.lost r.lost a b
          first.0 second.0,
      blames_on (O.faults p.out.now) (O.faults q.out.now) (O.faults r.out.now) p.lost q.lost r.lost first.1 second.1,
      second.2 ∙ first.2,
      λ f has. second.3 f (first.3 f has),
      second.4 ∙ first.4,
    ) };

    fn print(&mut self, piece: &[u8]) {
        if piece.len() <= self.pad.left() {
            self.pad.put(piece);
            return;
        }
        self.flush();
        if piece.len() <= self.pad.left() {
            self.pad.put(piece);
        } else {
            send(self.out, &mut self.lost, piece);
        }
    }

    fn is_lost(&self) -> bool {
        self.lost
    }
}
