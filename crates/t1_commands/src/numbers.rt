//! The numbers of a command.
ghost use Rattle.std.specs.Prelude.{◌≡◌};
ghost use Rattle.t1_commands.specs.Blocks.{block_size};
ghost use Rattle.t1_commands.specs.Commands.{number_of};

use t1_code::BlockSize;
use t1_frac::number_word;

/// The number of a word; the largest one, which no range has, for a word that is none or doesn't
/// fit.
#[tactic(auto, unfolding(crate::specs::Commands::number_of))]
pub fn number_of(word: &[u8]) -> i64
    ensures { result ≡ number_of word.now }
{
    number_word(word).unwrap_or(i64::MAX)
}

/// The block length of a number, from 1 to 2147483647.
pub fn block_size(number: i64) -> Option<BlockSize>
    ensures { result ≡ block_size number }
{
    if 1 <= number && number <= 2_147_483_647 {
        Some(BlockSize::new(number as usize))
    } else {
        None
    }
}

/// The block length that a word gives: a number word from 1 to 2147483647.
pub fn block_size_of_word(word: &[u8]) -> Option<BlockSize>
    ensures { result ≡ block_size (number_of word.now) }
{
    block_size(number_of(word))
}
