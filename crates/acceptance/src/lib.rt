// A file loaded and judged at once. The contract has demand 3 in it: what an accepted file's runs do.
#![tactic(auto)]

ghost use Rattle.accepting.specs.Accepting.{Accepts};

use calls::JudgeAnswer;

// Loads a file into the lent store and judges it: the count of its claims, or the refusal of load or of judge.
pub fn accept(file: &[u8], store: &mut [u8]) -> JudgeAnswer
    ensures { Accepts file.now store.old result store.new }
{
    call_load::load(file, store)?;
    call_judge::judge(store)
}
