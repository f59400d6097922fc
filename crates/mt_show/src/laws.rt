//! The law of show files, in the words of texts alone.

ghost use Rattle.std.specs.Prelude.{◌≡◌, ℕ, List, All, Result, Ok};
ghost use Rattle.mt_script.specs.Lines.{lines_of};
ghost use Rattle.mt_script.specs.Meaning.{IsShort};
ghost use Rattle.mt_show.specs.declared.refusal.ShowRefusal.{ShowRefusal};
ghost use Rattle.mt_show.specs.Grammar.{Keeps};
ghost use Rattle.mt_show.specs.Answer.{ShownAs};

use tunnel_pdus::{frame_meaning, tunnel_meaning};

/// Of each text exactly one thing is printed, or there is exactly one reason why nothing is. A text
/// of lines that keep the grammar, if not too long, is answered.
pub fn one_output()
    ensures some { (text : List ℕ) → (answer : Result (List ℕ) ShowRefusal) × ShownAs text answer }
    ensures one { (text : List ℕ) (a b : Result (List ℕ) ShowRefusal) → ShownAs text a → ShownAs text b → a ≡ b }
    ensures kept { (text : List ℕ) → IsShort text → All Keeps (lines_of text) → (output : List ℕ) × ShownAs text (Ok output) }
{
    udp1_packets::one_meaning();
    udp2_packets::one_meaning();
    tunnel_meaning();
    frame_meaning();
    dvc_pdus::one_meaning();
}
