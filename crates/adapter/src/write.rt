// The four images of a group.
ghost use Rattle.std.specs.Prelude.{◌≡◌, ◌*◌, ◌<◌, length};
ghost use Rattle.faults.specs.Refusals.{told};
ghost use Rattle.runs.specs.Part.{put};
ghost use Rattle.packet.specs.Damage.{data_size, sent_image};
ghost use Rattle.adapter.specs.Calls.{packet_of, group_images, write_answer, write_after};

use bare::Kind;
use faults::Refusal;
use group::Group;
use head::Wish;
use image::Packet;
use slot::Slot;

// 22, 23, 20: the message is not 360 bytes plain or 180 protected, or the output is not 376.
pub fn group(
    address: u32,
    protection: u32,
    message: &[u8],
    output: &mut [u8],
) -> Result<(), Refusal>
    ensures value { told result ≡ write_answer address protection (length message.now) (length output.old) }
    ensures output_after { output.new ≡ write_after address protection message.now output.old }
{
    answer(address, protection, message.len(), output.len())?;
    images(address, protection == 1, message, output);
    Ok(())
}

// By the lengths of the message and of the output.
fn answer(address: u32, protection: u32, message: usize, output: usize) -> Result<(), Refusal>
    ensures { told result ≡ write_answer address protection message output }
{
    if (address < 1) | (Wish::LAST_ADDRESS < address) {
        return Err(Refusal::Address);
    }
    if 1 < protection {
        return Err(Refusal::Protection);
    }
    let right = if protection == 1 {
        Slot::PROTECTED
    } else {
        Slot::ROOM
    };
    if message != right {
        return Err(Refusal::Length);
    }
    if output != Group::IMAGES {
        Err(Refusal::Length)
    } else {
        Ok(())
    }
}

// All four.
fn images(address: u32, protected: bool, message: &[u8], output: &mut [u8])
    requires address_bound { address < 1024 }
    requires message_len { length message.now ≡ 4 * data_size protected }
    requires output_len { length output.old ≡ 376 }
    ensures { output.new ≡ group_images protected address message.now }
{
    for index in 0..Group::PACKETS as u32 {
        one(address, protected, message, index, output);
    }
}

// The image of one packet, at its place.
fn one(address: u32, protected: bool, message: &[u8], index: u32, output: &mut [u8])
    requires address_bound { address < 1024 }
    requires message_len { length message.now ≡ 4 * data_size protected }
    requires index_bound { index < 4 }
    requires output_len { length output.old ≡ 376 }
    ensures { output.new ≡ put (index * 94) 94 (packet_of protected address message.now index) output.old }
{
    let len = if protected {
        Group::PROTECTED
    } else {
        Group::PLAIN
    };
    let at = index as usize * len;
    let to = index as usize * Packet::IMAGE;
    sent(
        address,
        index,
        protected,
        &message[at..at + len],
        &mut output[to..to + Packet::IMAGE],
    );
}

// The image of a data packet, into bytes that are lent.
fn sent(address: u32, index: u32, protected: bool, bytes: &[u8], out: &mut [u8])
    requires address_bound { address < 1024 }
    requires index_bound { index < 4 }
    requires bytes_len { length bytes.now ≡ data_size protected }
    requires out_len { length out.old ≡ 94 }
    ensures { out.new ≡ sent_image protected address index bytes.now }
{
    if protected {
        let coded = words::protect(bytes);
        packet::write(address, index, Kind::Data.into(), &coded, out);
    } else {
        packet::write(address, index, Kind::Data.into(), bytes, out);
    }
}
