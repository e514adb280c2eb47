//! What a provider answers to a key frame over its table: the refusals in their order, and else the
//! bytes of the answer frame, whatever the number of workers.
#![tactic(auto)]

mod answering;
mod asked;
mod fault;
mod layout;
mod levels;
mod ones;
mod shapes;
mod sums;
mod words;

pub use answering::answer;
pub use fault::ProviderFault;
