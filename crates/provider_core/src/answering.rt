//! The answer to a key frame.
ghost use Rattle.std.specs.Prelude.{◌≡◌, ◌+◌, ◌*◌, ◌≤◌, length, vec_len, IfOk, IfErr};
ghost use Rattle.spl_words.specs.Results.{Gives};
ghost use Rattle.answer_frames.specs.Spelling.{Allowed, spelling};
ghost use Rattle.session_model.specs.Answers.{answer_bytes};
ghost use Rattle.provider_core.specs.Answering.{answered};
ghost use Rattle.provider_core.specs.Asking.{IsRequest};
ghost use Rattle.provider_core.specs.Cells.{words_in as words_in_round};
ghost use Rattle.provider_core.specs.Faults.{OwnsMemory};
ghost use Rattle.provider_core.specs.declared.fault.ProviderFault.TheVariants.{OutOfMemory};

use crate::asked::{Request, judge};
use crate::fault::ProviderFault;
use crate::words::{Folding, fill_words, first_cells};
use answer_frames::{AnswerFrame, fill_answer};
use csv_tables::table_digest;
use key_frames::frame_digest;
use private_plan::{Plan, first_tree, plan};
use query_reader::laws::{accepted_has_cells, accepted_has_keys};
use seed_expansion::Expander;
use share_eval::{Gate, Lane};
use spl_values::Table;
use spl_words::{Provider, Words};
use std::alloc::{AllocError, Global};
use std::thread::Threads;

/// The bytes of an answer frame, in the room for them.
fn bytes_of(frame: &AnswerFrame, room: Vec<u8>) -> Vec<u8>
    requires allowed { Allowed frame.now }
    requires room { vec_len room ≡ 123 + 8 * length frame.now.words }
    ensures spelled { result.items ≡ spelling frame.now }
    ensures short { length result.items ≤ 123 + 8 * 65536 }
{
    let mut bytes = room;
    fill_answer(frame, &mut bytes);
    bytes
}

/// How many words answer a round of a plan.
fn words_in(plan: &Plan, round: u32) -> usize
    ensures { result ≡ words_in_round plan.now round }
{
    if round == 2 {
        plan.second_words as usize
    } else {
        plan.first_words as usize
    }
}

/// The frame's bytes, once nothing refuses it. All memory is taken before the first share is expanded.
fn reply<T: Threads + Sync, E: Expander + Sync, G: Gate + Sync>(
    rt: &T,
    alloc: Global,
    expander: &E,
    provider: Provider,
    bytes: &[u8],
    asked: &Request,
    table: &Table,
    workers: usize,
    gate: &G,
) -> Result<Vec<u8>, AllocError>
    requires asked { IsRequest bytes.now table.now asked.now }
    requires workers { (1 ≤ workers) × (workers ≤ 64) }
    ensures answer { IfOk result (λ v. v.items ≡ answer_bytes (E.meaning expander.now) provider bytes.now asked.now.frame asked.now.checked table.now) }
    ensures short { IfOk result (λ v. length v.items ≤ 123 + 8 * 65536) }
{
    // What a table and an accepted query keep.
    let _ = table.shape();
    accepted_has_cells();
    accepted_has_keys();
    let round = asked.frame.round;
    let plan = plan(alloc, &asked.checked, table.shape())?;
    let mut cells = first_cells(alloc, plan.kind, round, &asked.checked, table)?;
    let digest = table_digest(alloc, table)?;
    let mut lanes = vec![in alloc; Lane { sums: [0; 128] }; workers]?;
    let mut part = vec![in alloc; 0u64; cells.width as usize]?;
    let mut words = vec![in alloc; 0u64; words_in(&plan, round)]?;
    let room = vec![in alloc; 0u8; 123 + 8 * words.len()]?;
    let folding = Folding {
        expander,
        provider,
        asked,
        first_tree: first_tree(&plan, round),
        table,
    };
    fill_words(
        rt, gate, &folding, plan.kind, &mut cells, &mut lanes, &mut part, &mut words,
    );
    let frame = AnswerFrame {
        session: asked.frame.session,
        round,
        provider,
        key: frame_digest(bytes),
        table: digest,
        words: Words::from_vec(words),
    };
    Ok(bytes_of(&frame, room))
}

/// The answer of a provider to the bytes of a key frame, over its table: the bytes of the answer frame. There are 1 to 64
/// workers, and neither their number nor the gate makes a difference.
///
/// # Errors
///
/// Each of `ProviderFault`: of several reasons the first in its order.
#[tactic(auto, unfolding(crate::specs::Answering::answered))]
pub fn answer<T: Threads + Sync, E: Expander + Sync, G: Gate + Sync>(
    rt: &T,
    alloc: Global,
    expander: &E,
    provider: Provider,
    frame: &[u8],
    table: &Table,
    workers: usize,
    gate: &G,
) -> Result<Vec<u8>, ProviderFault>
    requires { (1 ≤ workers) × (workers ≤ 64) }
    // The frame's answer, or the first refusal, unless memory runs out.
    ensures gives { Gives OutOfMemory (λ v. v.items) result (answered (E.meaning expander.now) provider frame.now table.now) }
    // An answer has at most 65,536 words.
    ensures short { IfOk result (λ v. length v.items ≤ 123 + 8 * 65536) }
    // No fault in a refusal is want of memory.
    ensures memory { IfErr result OwnsMemory }
{
    let asked = judge(alloc, provider, frame, table)?;
    Ok(reply(
        rt, alloc, expander, provider, frame, &asked, table, workers, gate,
    )?)
}
