//! What C calls of messages and answers, with no handle.

ghost use Rattle.std.specs.Prelude.{◌≡◌, ◌≤◌, length};
ghost use Rattle.krb_structs.specs.Answers.{IsWritten, name_of, ok_name, ok_text, text_of};
ghost use Rattle.krb_structs.specs.Header.{ReadsHeader};
ghost use Rattle.krb_structs.specs.Reasons.{HeaderAnswer, TextAnswer};

use krb_structs::{KrbHeader, answer, message_header, name_into, text_into};

/// The version of the library: 0x010100 is 1.1.0.
const VERSION: u32 = 0x01_0100;

/// The version of the library: its major number, and a byte each for minor number and patch.
#[unsafe(no_mangle)]
pub extern "C" fn krbrelay_version() -> u32
    ensures { result ≡ 65792 }
{
    VERSION
}

/// Tells what a message says of itself in clear, so that a key can be chosen. Any answer but 0
/// leaves `told` as it was.
#[unsafe(no_mangle)]
pub extern "C" fn krbrelay_message_header(frame: &[u8], told: &mut KrbHeader) -> u32
    ensures read { result ≡ 0 → ReadsHeader frame.now told.new }
    ensures kept { ¬ (result ≡ 0) → told.new ≡ told.old }
    ensures answer { HeaderAnswer frame.now result }
{
    match message_header(frame) {
        Ok(found) => {
            *told = found;
            0
        }
        Err(fault) => fault.code(),
    }
}

/// Writes the name of the answer with this number and a zero after it, and the name's size.
#[unsafe(no_mangle)]
pub extern "C" fn krbrelay_answer_name(code: u32, out: &mut [u8], size: &mut usize) -> u32
    ensures named { result ≡ 0 → IsWritten name_of ok_name code size.new out.new }
    ensures out_kept { ¬ (result ≡ 0) → out.new ≡ out.old }
    ensures size_kept { ¬ (result ≡ 0) → size.new ≡ size.old }
    ensures answer { TextAnswer name_of ok_name code (length out.old) result }
{
    answer(size, name_into(code, out))
}

/// Writes what the answer with this number says and a zero after it, and the text's size.
#[unsafe(no_mangle)]
pub extern "C" fn krbrelay_answer_text(code: u32, out: &mut [u8], size: &mut usize) -> u32
    ensures told { result ≡ 0 → IsWritten text_of ok_text code size.new out.new }
    ensures out_kept { ¬ (result ≡ 0) → out.new ≡ out.old }
    ensures size_kept { ¬ (result ≡ 0) → size.new ≡ size.old }
    ensures answer { TextAnswer text_of ok_text code (length out.old) result }
{
    answer(size, text_into(code, out))
}
