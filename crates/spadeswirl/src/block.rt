// AES-256, one block at a time.
ghost use Rattle.std.specs.Prelude.{◌≡◌};
ghost use Rattle.aes.specs.Calls.{encrypt_block, decrypt_block};

use refusals::number;

#[unsafe(no_mangle)]
pub extern "C" fn spadeswirl_aes256_encrypt(key: &[u8], block: &mut [u8]) -> u8
    ensures { encrypt_block key.now block.old ≡ (result, block.new) }
{
    number(aes::encrypt_block(key, block))
}

#[unsafe(no_mangle)]
pub extern "C" fn spadeswirl_aes256_decrypt(key: &[u8], block: &mut [u8]) -> u8
    ensures { decrypt_block key.now block.old ≡ (result, block.new) }
{
    number(aes::decrypt_block(key, block))
}
