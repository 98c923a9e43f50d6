//! What a writer writes, so that a reader knows the writer and the number of each message.

ghost use Rattle.std.specs.Prelude.{◌≡◌, ◌≤◌, length};
ghost use Rattle.crew.specs.Message.{message_of};

use sync_base::limits::LEAST_SIZE;

/// The bytes of a message's head: its writer, and its number among that writer's messages.
pub const HEAD: usize = LEAST_SIZE as usize;

/// Fills a message: its writer and its number, each as 8 bytes with the highest first, and then
/// bytes equal to the number's remainder by 256.
pub fn fill(message: &mut [u8], writer: u64, number: u64)
    requires { HEAD ≤ length message.old }
    ensures { message.new ≡ message_of (length message.old) writer number }
{
    message[..8].copy_from_slice(&writer.to_be_bytes());
    message[8..HEAD].copy_from_slice(&number.to_be_bytes());
    message[HEAD..].fill((number % 256) as u8);
}

/// The writer that a message names.
pub fn writer_of(message: &[u8]) -> u64
    requires { HEAD ≤ length message.now }
{
    let mut head = [0; 8];
    head.copy_from_slice(&message[..8]);
    u64::from_be_bytes(head)
}
