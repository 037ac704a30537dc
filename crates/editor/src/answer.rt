// What a program in C is answered.

ghost use Rattle.std.specs.Prelude.{◌≡◌, ℕ, ◌≤◌, ◌⊎◌};
ghost use Rattle.load.specs.Loading.{loaded};
ghost use Rattle.editor.specs.Answer.{answer_to, want_of_memory};

use load::Loader;
use std::alloc::Global;

// The answer where no memory is to be had.
const WANT_OF_MEMORY: u64 = 40;

fn answer(loader: &mut Loader, text: &[u8]) -> u64
    ensures { result ≡ answer_to (loaded text.now) }
{
    match loader.check(text) {
        Ok(()) => 0,
        Err(fault) => fault.place() as u64 * 64 + u64::from(fault.number()),
    }
}

// 0 where the text is a plan, else place * 64 + number of the first fault; 40 where no memory is to be had.
#[unsafe(no_mangle)]
pub extern "C" fn suhilbon_check(heap: Global, text: &[u8]) -> u64
    ensures { (result ≡ answer_to (loaded text.now)) ⊎ (result ≡ want_of_memory) }
{
    match Loader::new(heap) {
        Ok(mut loader) => answer(&mut loader, text),
        Err(_) => WANT_OF_MEMORY,
    }
}
