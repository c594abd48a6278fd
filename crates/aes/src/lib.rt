// AES-256: the block cipher of FIPS 197. A state is four columns of four bytes and a schedule fifteen round keys, all by value.
#![tactic(auto)]

mod backward;
mod forward;
mod schedule;

ghost use Rattle.std.specs.Prelude.{◌≡◌, ℕ, List, true, false, MatchResult};
ghost use Rattle.octets.specs.Lent.{over};
ghost use Rattle.refusals.specs.Numbers.{outcome_number};
ghost use Rattle.aes.specs.Cipher.{cipher};
ghost use Rattle.aes.specs.InvCipher.{inv_cipher};
ghost use Rattle.aes.specs.KeyExpansion.{schedule};
ghost use Rattle.aes.specs.Calls.{wrong_lengths, encrypt_block, decrypt_block};

use aes_state::{State, add_round_key, load, store};
use backward::all_inv_rounds;
use forward::{all_rounds, last_round};
use octets::strings::{Block, first, put};
use refusals::Refusal;
use schedule::extend;

pub type Key = [u8; 32];

pub type RoundKeys = [State; 15];

const KEY_SIZE: usize = 32;

const BLOCK_SIZE: usize = 16;

// Rounds 1 to 13 are alike, and the last is not.
pub const MIDDLE_ROUNDS: usize = 13;

pub const LAST_ROUND: usize = 14;

// KeyExpansion (5.2). Key and schedule are arrays (document 01), and a From may not stand between two types of std.
pub fn expand_key(key: Key) -> RoundKeys
    ensures { result ≡ schedule key }
{
    let (front, back) = key.split_at(BLOCK_SIZE);
    extend(load(first(front)), load(first(back)))
}

#[tactic(auto, using(crate::proofs::Rounds::cipher_steps))]
pub fn encrypt(ks: RoundKeys, block: Block) -> Block
    ensures { result ≡ cipher ks block }
{
    let s = add_round_key(load(block), ks[0]);
    store(last_round(all_rounds(ks, s), ks[LAST_ROUND]))
}

#[tactic(auto, using(crate::proofs::Rounds::inv_cipher_steps))]
pub fn decrypt(ks: RoundKeys, block: Block) -> Block
    ensures { result ≡ inv_cipher ks block }
{
    let s = add_round_key(load(block), ks[LAST_ROUND]);
    store(all_inv_rounds(ks, s))
}

// Lent bytes.

fn wrong_lengths(key: &[u8], block: &[u8]) -> bool
    ensures { result ≡ wrong_lengths key.now block.now }
{
    (key.len() != KEY_SIZE) | (block.len() != BLOCK_SIZE)
}

// The block is changed in place by a way of the cipher, or not at all.
fn change<F: FnOnce(RoundKeys, Block) -> Block>(
    key: &[u8],
    block: &mut [u8],
    way: F,
) -> Result<(), Refusal>
    requires { F.IsAlwaysCallable way }
    ensures { MatchResult result
        (λ _. (r : List ℕ) × (wrong_lengths key.now block.old ≡ false) × F.post way (schedule key.now) block.old r × (block.new ≡ over r block.old))
        (λ e. (wrong_lengths key.now block.old ≡ true) × (e ≡ Refusal.Layout) × (block.new ≡ block.old)) }
{
    if wrong_lengths(key, block) {
        return Err(Refusal::Layout);
    }
    let done = way(expand_key(first(key)), first(block));
    put(block, &done);
    Ok(())
}

#[tactic(auto, unfolding(crate::specs::Calls::block_answer, crate::specs::Calls::block_number))]
pub fn encrypt_block(key: &[u8], block: &mut [u8]) -> Result<(), Refusal>
    ensures { encrypt_block key.now block.old ≡ (outcome_number result, block.new) }
{
    change(key, block, encrypt)
}

#[tactic(auto, unfolding(crate::specs::Calls::block_answer, crate::specs::Calls::block_number))]
pub fn decrypt_block(key: &[u8], block: &mut [u8]) -> Result<(), Refusal>
    ensures { decrypt_block key.now block.old ≡ (outcome_number result, block.new) }
{
    change(key, block, decrypt)
}
