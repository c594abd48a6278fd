// CCM and GCM by themselves, each by the byte that names it; the second part of the associated data is empty.
// The C interface has a name for each, so that no generic function stands in place of these.
ghost use Rattle.std.specs.Prelude.{◌≡◌, []};
ghost use Rattle.modes.specs.Ccm.{ccm};
ghost use Rattle.modes.specs.Gcm.{gcm};
ghost use Rattle.modes.specs.Calls.{encrypt_answer, decrypt_answer};

use refusals::number;

const CCM: u8 = 0x01;

const GCM: u8 = 0x02;

#[unsafe(no_mangle)]
pub extern "C" fn spadeswirl_ccm_encrypt(
    key: &[u8],
    iv: &[u8],
    aad: &[u8],
    plain: &[u8],
    out: &mut [u8],
) -> u8
    ensures { encrypt_answer ccm key.now iv.now aad.now [] plain.now out.old ≡ (result, out.new) }
{
    number(modes::encrypt(CCM, key, iv, aad, &[], plain, out))
}

#[unsafe(no_mangle)]
pub extern "C" fn spadeswirl_ccm_decrypt(
    key: &[u8],
    iv: &[u8],
    aad: &[u8],
    text: &[u8],
    tag: &[u8],
    out: &mut [u8],
) -> u8
    ensures { decrypt_answer ccm key.now iv.now aad.now [] text.now tag.now out.old ≡ (result, out.new) }
{
    number(modes::decrypt(CCM, key, iv, aad, &[], text, tag, out))
}

#[unsafe(no_mangle)]
pub extern "C" fn spadeswirl_gcm_encrypt(
    key: &[u8],
    iv: &[u8],
    aad: &[u8],
    plain: &[u8],
    out: &mut [u8],
) -> u8
    ensures { encrypt_answer gcm key.now iv.now aad.now [] plain.now out.old ≡ (result, out.new) }
{
    number(modes::encrypt(GCM, key, iv, aad, &[], plain, out))
}

#[unsafe(no_mangle)]
pub extern "C" fn spadeswirl_gcm_decrypt(
    key: &[u8],
    iv: &[u8],
    aad: &[u8],
    text: &[u8],
    tag: &[u8],
    out: &mut [u8],
) -> u8
    ensures { decrypt_answer gcm key.now iv.now aad.now [] text.now tag.now out.old ≡ (result, out.new) }
{
    number(modes::decrypt(GCM, key, iv, aad, &[], text, tag, out))
}
