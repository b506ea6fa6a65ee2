// A request's information read, and the body of a request, a reply or an interrupt written.
#![tactic(auto)]

ghost use Rattle.std.specs.Prelude.{◌≡◌, [], ◌∷◌, ◌<◌, ◌≤◌, length};
ghost use Rattle.numbers.specs.Numbers.{reply_bytes};
ghost use Rattle.parts.specs.Parts.{put};
ghost use Rattle.packets.specs.Packets.{address, request_of, data_of, byte_of, reply_body, request_body};

use commands::request::Request;

// The chip's address.
pub const ADDRESS: u8 = 0x00;

// The eight bytes of information.
// Kept: a slice with a clause for its length, since document 01 wants the information handed on as a part, `&body[2..]`.
pub fn request_of(info: &[u8]) -> Request
    requires { length info.now ≡ 8 }
    ensures { result ≡ request_of info.now }
{
    Request {
        trn: info[0],
        ch: info[1],
        len: info[2],
        cmd: info[3],
        value: u32::from_le_bytes([info[6], info[7], info[4], info[5]]),
    }
}

// D of the body of a reply or an interrupt.
pub fn data_of(body: &[u8]) -> u32
    requires { length body.now ≡ 10 }
    ensures { result ≡ data_of body.now }
{
    u32::from_le_bytes([body[8], body[9], body[6], body[7]])
}

// Writes address and control at the front of an output: the whole body of a frame without information.
#[tactic(auto, unfolding(parts::specs::Parts::put))]
pub fn put_control(output: &mut [u8], control: u8)
    requires { 2 ≤ length output.old }
    ensures { output.new ≡ put 0 (address ∷ control ∷ []) output.old }
{
    output[..2].copy_from_slice(&[ADDRESS, control]);
}

// Writes the body of a request, a reply or an interrupt at the front of an output: TRN and CH, the two bytes behind them, and D in the wire's order.
#[tactic(auto, unfolding(parts::specs::Parts::put))]
fn put_body(output: &mut [u8], control: u8, trn: u8, ch: u8, third: u8, fourth: u8, value: u32)
    requires { reply_bytes ≤ length output.old }
    ensures { output.new ≡ put 0 (reply_body control trn ch third fourth value) output.old }
{
    let [d0, d1, d2, d3] = value.to_le_bytes();
    let body = [ADDRESS, control, trn, ch, third, fourth, d2, d3, d0, d1];
    output[..body.len()].copy_from_slice(&body);
}

// Writes the body of a reply or an interrupt at the front of an output.
pub fn put_reply(output: &mut [u8], control: u8, trn: u8, ch: u8, err: u8, len: u8, value: u32)
    requires { reply_bytes ≤ length output.old }
    ensures { output.new ≡ put 0 (reply_body control trn ch err len value) output.old }
{
    put_body(output, control, trn, ch, err, len, value);
}

// Writes the body of a request at the front of an output: LEN and CMD stand where a reply has ERR and LEN.
pub fn put_request(output: &mut [u8], control: u8, q: Request)
    requires { reply_bytes ≤ length output.old }
    ensures { output.new ≡ put 0 (request_body control q.trn q.ch q.len q.cmd q.value) output.old }
{
    put_body(output, control, q.trn, q.ch, q.len, q.cmd, q.value);
}
