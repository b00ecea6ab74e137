// Whole numbers in bytes, in either byte order.
ghost use Rattle.std.specs.Prelude.{◌≡◌, [], ◌∷◌, ◌+◌, ◌<◌, ◌≤◌, length};
ghost use Rattle.laws.specs.Pieces.{put_at};
ghost use Rattle.byte_order.specs.declared.bytes.ByteOrder.TheVariants.{Little, Big};
ghost use Rattle.byte_order.specs.Bytes.{number_at, bytes_of};

#[derive(Clone, Copy, PartialEq, Eq, Debug)]
pub enum ByteOrder {
    Little,
    Big,
}

// The number whose two bytes begin at a place.
#[tactic(auto, unfolding(crate::specs::Bytes::number_at))]
pub fn number2_at(bytes: &[u8], at: usize, order: ByteOrder) -> u32
    requires { at + 2 ≤ length bytes.now }
    ensures { (result < 65536) × (result ≡ number_at order bytes.now at 2) }
{
    let word = [bytes[at], bytes[at + 1]];
    match order {
        ByteOrder::Little => u32::from(u16::from_le_bytes(word)),
        ByteOrder::Big => u32::from(u16::from_be_bytes(word)),
    }
}

// The number whose four bytes begin at a place.
#[tactic(auto, unfolding(crate::specs::Bytes::number_at))]
pub fn number4_at(bytes: &[u8], at: usize, order: ByteOrder) -> u32
    requires { at + 4 ≤ length bytes.now }
    ensures { result ≡ number_at order bytes.now at 4 }
{
    let word = [bytes[at], bytes[at + 1], bytes[at + 2], bytes[at + 3]];
    match order {
        ByteOrder::Little => u32::from_le_bytes(word),
        ByteOrder::Big => u32::from_be_bytes(word),
    }
}

// Writes bytes at a place.
#[tactic(auto, using(laws::proofs::laws::Pieces::part_put), unfolding(laws::specs::Pieces::put_at))]
fn put(bytes: &mut [u8], at: usize, word: &[u8])
    requires { at + length word.now ≤ length bytes.old }
    ensures { bytes.new ≡ put_at at word.now bytes.old }
{
    bytes[at..at + word.len()].copy_from_slice(word);
}

// Writes a number's two bytes at a place.
#[tactic(auto, unfolding(crate::specs::Bytes::bytes_of))]
pub fn put_number2(bytes: &mut [u8], at: usize, order: ByteOrder, number: u32)
    requires { at + 2 ≤ length bytes.old }
    ensures { bytes.new ≡ put_at at (bytes_of order 2 number) bytes.old }
{
    let word = (number % 65536) as u16;
    match order {
        ByteOrder::Little => put(bytes, at, &word.to_le_bytes()),
        ByteOrder::Big => put(bytes, at, &word.to_be_bytes()),
    }
}

// Writes a number's four bytes at a place.
#[tactic(auto, unfolding(crate::specs::Bytes::bytes_of))]
pub fn put_number4(bytes: &mut [u8], at: usize, order: ByteOrder, number: u32)
    requires { at + 4 ≤ length bytes.old }
    ensures { bytes.new ≡ put_at at (bytes_of order 4 number) bytes.old }
{
    match order {
        ByteOrder::Little => put(bytes, at, &number.to_le_bytes()),
        ByteOrder::Big => put(bytes, at, &number.to_be_bytes()),
    }
}
