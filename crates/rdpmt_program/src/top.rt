//! The whole program, over its devices.

ghost use Rattle.std.specs.Prelude.{◌≡◌, ◌⊎◌, ℕ, List, IsErrOf};
ghost use Rattle.mt_outside.specs.Faults.{Counts};
ghost use Rattle.rdpmt_program.specs.Command.{words_of, IsPlay, IsShow, IsCheck, AsksFor, IsCommand};
ghost use Rattle.rdpmt_program.specs.Script.{IsTooLong};
ghost use Rattle.rdpmt_program.specs.Table.{Reports, WritesAll, AskedFor, Names, IsRefusable, IsUnshowable, IsUnreadable, IsBreaking};
ghost use Rattle.rdpmt_program.specs.Outcome.{Outcome};
ghost use Rattle.rdpmt_program.specs.Fate.{Runs};

use crate::checking::check_file;
use crate::fault::Fault;
use crate::playing::play_script;
use crate::print::tell;
use crate::showing::show_file;
use crate::words::{Command, read_words};
use capture_check::{one_answer as one_capture, one_judgement};
use mt_outside::{FileStore, Sink};
use mt_script::one_answer;
use mt_show::one_output;
use mt_world::Text;
use std::alloc::Global;

/// Runs the command that the words are, prints its output or why there is none, and answers the
/// status.
///
/// Each status but 4 comes by its row of the table, and all of the row's output is printed; 4 is
/// for a sink that fails, which then took a front of some row's output. No file changes, and the
/// store is asked for the named file alone. Want of memory, 9, may come in place of any other answer
/// to the words of a command, but never where the store's count of faults rose.
pub fn rdpmt<F: FileStore, K: Sink>(
    alloc: Global,
    words: &Vec<String>,
    files: &mut F,
    out: &mut K,
) -> u8
    ensures done { result ≡ 0 → WritesAll (Reports (words_of words.now.items) (F.told files.old)) (K.written out.old) (K.written out.new) }

    // The only cause of each status, no fault that is overcome, and no other answer than 0 and 9
    // where all is well.
    ensures outcome { let before : Counts = record { store = F.faults files.old; sink = K.faults out.old } in
        let after : Counts = record { store = F.faults files.new; sink = K.faults out.new } in
        Outcome (words_of words.now.items) (F.told files.old) before after (K.written out.old) (K.written out.new) result }

    // Nothing else comes where the words are no command's, where a file passes a limit, where a line
    // of a script, a show file or a capture is refused, and where a line of a capture breaks a rule.
    ensures usage { ¬ IsCommand (words_of words.now.items) → (result ≡ 1) ⊎ (result ≡ 4) }
    ensures limit { (text : List ℕ) → Names (AsksFor (words_of words.now.items)) (F.told files.old) text → IsTooLong text → (result ≡ 11) ⊎ (result ≡ 3) ⊎ (result ≡ 4) ⊎ (result ≡ 9) }
    ensures refused { (text : List ℕ) → Names (IsPlay (words_of words.now.items)) (F.told files.old) text → IsRefusable text → (result ≡ 2) ⊎ (result ≡ 3) ⊎ (result ≡ 4) ⊎ (result ≡ 9) }
    ensures refused_show { (text : List ℕ) → Names (IsShow (words_of words.now.items)) (F.told files.old) text → IsUnshowable text → (result ≡ 2) ⊎ (result ≡ 3) ⊎ (result ≡ 4) ⊎ (result ≡ 9) }
    ensures refused_capture { (text : List ℕ) → Names (IsCheck (words_of words.now.items)) (F.told files.old) text → IsUnreadable text → (result ≡ 2) ⊎ (result ≡ 3) ⊎ (result ≡ 4) ⊎ (result ≡ 9) }
    ensures broken { (text : List ℕ) → Names (IsCheck (words_of words.now.items)) (F.told files.old) text → IsBreaking text → (result ≡ 8) ⊎ (result ≡ 3) ⊎ (result ≡ 4) ⊎ (result ≡ 9) }

    ensures names { AskedFor (words_of words.now.items) (F.named files.old) (F.named files.new) }
    ensures same { F.told files.new ≡ F.told files.old }
{
    one_answer();
    one_output();
    one_capture();
    one_judgement();
    let ended = run(alloc, words, files);
    tell(out, ended)
}

/// Runs the command that the words are.
fn run<F: FileStore>(alloc: Global, words: &Vec<String>, files: &mut F) -> Result<Text, Fault>
    ensures cause { Runs (words_of words.now.items) (F.told files.old) (F.faults files.old) (F.faults files.new) result }
    ensures counts { ¬ IsErrOf result Fault.File → F.faults files.new ≡ F.faults files.old }
    ensures names { AskedFor (words_of words.now.items) (F.named files.old) (F.named files.new) }
    ensures same { F.told files.new ≡ F.told files.old }
{
    match read_words(words) {
        Some(Command::Play(script)) => play_script(alloc, files, script),
        Some(Command::Show(file)) => show_file(alloc, files, file),
        Some(Command::Check(capture)) => check_file(alloc, files, capture),
        None => Err(Fault::Usage),
    }
}
