//! Laws of captures, in the words of texts and lines alone.

ghost use Rattle.std.specs.Prelude.{◌≡◌, ◌≤◌, ℕ, List, All, length, map, Result, Ok};
ghost use Rattle.capture_check.specs.declared.entry.Entry.{Entry};
ghost use Rattle.capture_check.specs.declared.entry.CaptureRefusal.{CaptureRefusal};
ghost use Rattle.capture_check.specs.declared.judgement.Judgement.{Judgement};
ghost use Rattle.mt_script.specs.Lines.{Lacks, ended};
ghost use Rattle.mt_script.specs.Meaning.{line_limit};
ghost use Rattle.mt_script.specs.Spelling.{IsBytes};
ghost use Rattle.capture_check.specs.Spelling.{IsEntry, spelled};
ghost use Rattle.capture_check.specs.Meaning.{ReadsAs};
ghost use Rattle.capture_check.specs.Rules.{Judged};

/// Each entry has one spelling, which no other entry has and which is a line.
pub fn one_spelling()
    ensures one { (a b : Entry) → IsEntry a → IsEntry b → spelled a ≡ spelled b → a ≡ b }
    ensures line { (entry : Entry) → IsEntry entry
        → IsBytes (spelled entry) × Lacks 10 (spelled entry) }
{}

/// Each text is exactly one capture, or has exactly one refusal; and each list of entries, if not
/// too long, has a text.
pub fn one_answer()
    ensures some { (text : List ℕ)
        → (answer : Result (List Entry) CaptureRefusal) × ReadsAs text answer }
    ensures one { (text : List ℕ) (a b : Result (List Entry) CaptureRefusal)
        → ReadsAs text a → ReadsAs text b → a ≡ b }
    ensures written { (entries : List Entry)
        → length entries ≤ line_limit → All IsEntry entries
        → ReadsAs (ended (map spelled entries)) (Ok entries) }
{}

/// The rules up to a number judge each list of entries in at most one way, and those of numbers in
/// exactly one.
pub fn one_judgement()
    ensures some { (entries : List Entry)
        → (judgement : Judgement) × Judged 3 entries judgement }
    ensures one { (most : ℕ) (entries : List Entry) (a b : Judgement)
        → Judged most entries a → Judged most entries b → a ≡ b }
{}
