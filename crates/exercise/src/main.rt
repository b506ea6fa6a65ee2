// Every command once, and every other event: one line for each, document 01's number and the body that is sent.
// `stdout` is worked out by hand from document 01, for the masters from request 2026-01 and chapter 6 of 000, for the edge of an
// interrupt from request 2026-02. The comment above a call is how its line comes about: s and r are the send and the receive number in
// its control, 2 s + 32 r; then LEN as asked and as given, and the data. A reply is 00, control, TRN 01, CH, ERR, LEN, D[23:16],
// D[31:24], D[7:0], D[15:8]; ERR is 0 and data is 0 where nothing else is said.
#![tactic(auto)]

mod requests;

use requests::Chip;

// The controller is always enabled. A register stands in D[31:24], the second byte of data.
fn controller(rt: &impl Print, chip: &mut Chip) {
    // s 0 r 1: 20. LEN 4/2. SPI (bit 1) and the parallel lines (bit 2) are enabled; bit 0 reads 0.
    chip.ask(rt, 0x00, 4, 0x02, 0x07000000);
    // s 1 r 2: 42. LEN 2/4. CRB is 06: 00 06 00 00.
    chip.ask(rt, 0x00, 2, 0x03, 0);
    // s 2 r 3: 64. LEN 4/2. The masters 0x0A (bit 2) and 0x0F (bit 7, I2CC) are enabled.
    chip.ask(rt, 0x00, 4, 0x04, 0x84000000);
    // s 3 r 4: 86. LEN 2/4. CRC is 84: 00 84 00 00.
    chip.ask(rt, 0x00, 2, 0x05, 0);
    // s 4 r 5: A8. LEN 4/2. 0x13 (bit 3) and 0x14 (bit 4) are enabled; bits 7 to 5 read 0.
    chip.ask(rt, 0x00, 4, 0x06, 0xF8000000);
    // s 5 r 6: CA. LEN 2/4. CRD is 18: 00 18 00 00.
    chip.ask(rt, 0x00, 2, 0x07, 0);
}

// CONTROL and FREQ stand in D[15:0], SS in D[7:0].
fn spi_settings(rt: &impl Print, chip: &mut Chip) {
    // s 6 r 7: EC. LEN 6/2. A length of 8 bits (bits 6 to 0); bit 15 is kept too.
    chip.ask(rt, 0x01, 6, 0x40, 0x00008008);
    // s 7 r 0, since 7 is followed by 0: 0E. LEN 2/6. CONTROL is 8008: 00 00 08 80.
    chip.ask(rt, 0x01, 2, 0x41, 0);
    // s 0 r 1: 20. LEN 6/2.
    chip.ask(rt, 0x01, 6, 0x50, 0x00001234);
    // s 1 r 2: 42. LEN 2/6. FREQ is 1234: 00 00 34 12.
    chip.ask(rt, 0x01, 2, 0x51, 0);
    // s 2 r 3: 64. LEN 6/2. D[15:8] is not read.
    chip.ask(rt, 0x01, 6, 0x60, 0x000001A5);
    // s 3 r 4: 86. LEN 2/6. SS is A5: 00 00 A5 00.
    chip.ask(rt, 0x01, 2, 0x61, 0);
}

fn spi_data(rt: &impl Print, chip: &mut Chip) {
    // s 4 r 5: A8. LEN 6/2.
    chip.ask(rt, 0x01, 6, 0x00, 0x11223344);
    // s 5 r 6: CA. LEN 2/6. Word 0 is 11223344: 22 11 44 33.
    chip.ask(rt, 0x01, 2, 0x01, 0);
    // s 6 r 7: EC. LEN 6/2.
    chip.ask(rt, 0x01, 6, 0x10, 0x55667788);
    // s 7 r 0: 0E. LEN 2/6. Word 1 is 55667788: 66 55 88 77.
    chip.ask(rt, 0x01, 2, 0x11, 0);
    // s 0 r 1: 20. LEN 6/2.
    chip.ask(rt, 0x01, 6, 0x20, 0x99AABBCC);
    // s 1 r 2: 42. LEN 2/6. Word 2 is 99AABBCC: AA 99 CC BB.
    chip.ask(rt, 0x01, 2, 0x21, 0);
    // s 2 r 3: 64. LEN 6/2.
    chip.ask(rt, 0x01, 6, 0x30, 0xDDEEFF00);
    // s 3 r 4: 86. LEN 2/6. Word 3 is DDEEFF00: EE DD 00 FF.
    chip.ask(rt, 0x01, 2, 0x31, 0);
}

fn spi_transfer(rt: &impl Print, chip: &mut Chip) {
    // 17: GO gives no reply yet. It was accepted, so r is 5; s stays 4.
    chip.ask(rt, 0x01, 2, 0x72, 0);
    // s 4 r 6: C8. SPI is busy: ERR 40, and as in every error reply LEN 2.
    chip.ask(rt, 0x01, 2, 0x01, 0);
    // s 5 r 6: CA. The GO's reply, LEN 6: of 11223344 the low 8 bits become the received 5A. DATA[31:0] is 1122335A: 22 11 5A 33.
    let received = [0x5A, 0xFF, 0, 0, 0, 0, 0, 0, 0, 0, 0, 0, 0, 0, 0, 0];
    chip.completion(rt, &received);
    // 15: SPI is not busy any more.
    chip.completion(rt, &received);
}

fn lines(rt: &impl Print, chip: &mut Chip) {
    // s 6 r 7: EC. LEN 4/2.
    chip.ask(rt, 0x02, 4, 0x10, 0x01020304);
    // s 7 r 0: 0E. LEN 1/4. DATAOUT is 01020304: 02 01 04 03.
    chip.ask(rt, 0x02, 1, 0x11, 0);
    // s 0 r 1: 20. LEN 4/2. Lines 31 to 16 are outputs.
    chip.ask(rt, 0x02, 4, 0x20, 0xFFFF0000);
    // s 1 r 2: 42. LEN 1/4. DIRECTION is FFFF0000: FF FF 00 00.
    chip.ask(rt, 0x02, 1, 0x21, 0);
    // s 2 r 3: 64. LEN 4/2. Lines 0, 1 and 16 may interrupt.
    chip.ask(rt, 0x02, 4, 0x30, 0x00010003);
    // s 3 r 4: 86. LEN 1/4. INTSEL is 00010003: 01 00 03 00.
    chip.ask(rt, 0x02, 1, 0x31, 0);
    // s 4 r 5: A8. LEN 4/2. Line 1 fires on rising, the others on falling.
    chip.ask(rt, 0x02, 4, 0x40, 0x00000002);
    // s 5 r 6: CA. LEN 1/4. INTTRIG is 00000002: 00 00 02 00.
    chip.ask(rt, 0x02, 1, 0x41, 0);
    // s 6 r 7: EC. LEN 4/2.
    chip.ask(rt, 0x02, 4, 0x70, 0x00000080);
    // s 7 r 0: 0E. LEN 1/4. INTS is 00000080: 00 00 80 00.
    chip.ask(rt, 0x02, 1, 0x71, 0);
    // s 0 r 1: 20. LEN 4/2. Line 8 goes by the strobe.
    chip.ask(rt, 0x02, 4, 0x80, 0x00000100);
    // s 1 r 2: 42. LEN 1/4. CLKSEL is 00000100: 00 00 00 01.
    chip.ask(rt, 0x02, 1, 0x81, 0);
    // s 2 r 3: 64. LEN 4/2. Line 8 goes by the strobe's falling edge.
    chip.ask(rt, 0x02, 4, 0x90, 0x00000100);
    // s 3 r 4: 86. LEN 1/4. EDGESEL is 00000100: 00 00 00 01.
    chip.ask(rt, 0x02, 1, 0x91, 0);
}

fn samples(rt: &impl Print, chip: &mut Chip) {
    // 17: lines 0 and 1 take 1, line 8 waits for the strobe, line 16 is an output. Line 1 fires, but INTENABLE is 0.
    chip.sample(rt, 0x00010103, 0);
    // s 4 r 5: A8. LEN 4/2. D[0] alone is read.
    chip.ask(rt, 0x02, 4, 0x60, 0xFFFFFFFF);
    // s 5 r 6: CA. LEN 1/4. INTENABLE is 1: 00 00 01 00.
    chip.ask(rt, 0x02, 1, 0x61, 0);
    // s 6 r 6: CC. Lines 0 and 1 fall, line 0 fires: an interrupt, TRN FF, CH 02, LEN 4. INTS becomes 00000001: 00 00 01 00.
    chip.sample(rt, 0x00000000, 0);
    // s 7 r 7: EE. LEN 1/4. INTS is 00000001: 00 00 01 00.
    chip.ask(rt, 0x02, 1, 0x71, 0);
    // 17: the strobe falls, line 8 alone takes 1; INTSEL does not have it.
    chip.sample(rt, 0x00000103, 2);
    // s 0 r 0: 00. LEN 1/4. DATAIN is 00000100: 00 00 00 01.
    chip.ask(rt, 0x02, 1, 0x01, 0);
}

fn upsets_and_id(rt: &impl Print, chip: &mut Chip) {
    // 17: the counter is 1.
    chip.upset(rt);
    // s 1 r 1: 22. LEN 4/4. The counter, low byte in D[7:0]: 00 00 01 00.
    chip.ask(rt, 0x13, 4, 0xF1, 0);
    // s 2 r 2: 44. LEN 4/2.
    chip.ask(rt, 0x13, 4, 0xF0, 0);
    // s 3 r 3: 66. LEN 4/4. The ID is 00000A: 00 00 0A 00.
    chip.ask(rt, 0x14, 4, 0xD1, 0);
}

// The DAC is always enabled; an output stands in D[7:0].
fn outputs(rt: &impl Print, chip: &mut Chip) {
    // s 4 r 4: 88. LEN 4/1.
    chip.ask(rt, 0x15, 4, 0x10, 0x11);
    // s 5 r 5: AA. LEN 1/4. A is 11: 00 00 11 00.
    chip.ask(rt, 0x15, 1, 0x11, 0);
    // s 6 r 6: CC. LEN 4/1.
    chip.ask(rt, 0x15, 4, 0x20, 0x22);
    // s 7 r 7: EE. LEN 1/4. B is 22: 00 00 22 00.
    chip.ask(rt, 0x15, 1, 0x21, 0);
    // s 0 r 0: 00. LEN 4/1.
    chip.ask(rt, 0x15, 4, 0x30, 0x33);
    // s 1 r 1: 22. LEN 1/4. C is 33: 00 00 33 00.
    chip.ask(rt, 0x15, 1, 0x31, 0);
    // s 2 r 2: 44. LEN 4/1.
    chip.ask(rt, 0x15, 4, 0x40, 0x44);
    // s 3 r 3: 66. LEN 1/4. D is 44: 00 00 44 00.
    chip.ask(rt, 0x15, 1, 0x41, 0);
}

// CTRL, MASK and STATUS stand in D[31:24]. The LEN of a register command counts its bytes of data.
fn master_settings(rt: &impl Print, chip: &mut Chip) {
    // s 4 r 4: 88. LEN 4. CTRL is 00 still, and a start of many bytes wants an NBYTE (bits 6 to 2) of 1 to 16: ERR 10, LEN 2.
    chip.ask(rt, 0x0A, 4, 0xDA, 0x50000000);
    // s 5 r 5: AA. LEN 1/0. NBYTE is 5; bits 7, 1 and 0 are set.
    chip.ask(rt, 0x0A, 1, 0x30, 0x97000000);
    // s 6 r 6: CC. LEN 0/1. CTRL is 97: 00 97 00 00.
    chip.ask(rt, 0x0A, 0, 0x31, 0);
    // s 7 r 7: EE. LEN 1/0.
    chip.ask(rt, 0x0A, 1, 0x20, 0x3C000000);
    // s 0 r 0: 00. LEN 0/1. MASK is 3C: 00 3C 00 00.
    chip.ask(rt, 0x0A, 0, 0x21, 0);
}

// The first of four bytes stands in D[31:24], the last in D[7:0].
fn master_data(rt: &impl Print, chip: &mut Chip) {
    // s 1 r 1: 22. LEN 4/0.
    chip.ask(rt, 0x0A, 4, 0x40, 0x01020304);
    // s 2 r 2: 44. LEN 0/4. Bytes 0 to 3 are 01 02 03 04: 02 01 04 03.
    chip.ask(rt, 0x0A, 0, 0x41, 0);
    // s 3 r 3: 66. LEN 4/0.
    chip.ask(rt, 0x0A, 4, 0x50, 0x05060708);
    // s 4 r 4: 88. LEN 0/4. Bytes 4 to 7 are 05 06 07 08: 06 05 08 07.
    chip.ask(rt, 0x0A, 0, 0x51, 0);
    // s 5 r 5: AA. LEN 4/0.
    chip.ask(rt, 0x0A, 4, 0x60, 0x090A0B0C);
    // s 6 r 6: CC. LEN 0/4. Bytes 8 to 11 are 09 0A 0B 0C: 0A 09 0C 0B.
    chip.ask(rt, 0x0A, 0, 0x61, 0);
    // s 7 r 7: EE. LEN 4/0.
    chip.ask(rt, 0x0A, 4, 0x70, 0x0D0E0F10);
    // s 0 r 0: 00. LEN 0/4. Bytes 12 to 15 are 0D 0E 0F 10: 0E 0D 10 0F.
    chip.ask(rt, 0x0A, 0, 0x71, 0);
}

// A start is accepted and gives 17. Its reply comes with the completion: STATUS in D[31:24], 04 where all went well.
fn single_starts(rt: &impl Print, chip: &mut Chip) {
    // 17, then s 1 r 1: 22. LEN 4/4. A write takes no byte: 00 04 00 00.
    chip.ask(rt, 0x0A, 4, 0x82, 0x50AB0000);
    chip.transaction(rt, true, false, &[0xC3]);
    // 17, then s 2 r 2: 44. LEN 4/4. A read's first byte goes to D[23:16]: C3 04 00 00.
    chip.ask(rt, 0x0A, 4, 0x86, 0x50000000);
    chip.transaction(rt, true, false, &[0xC3, 0x99]);
    // 17, then s 3 r 3: 66. LEN 6/4. 00 04 00 00.
    chip.ask(rt, 0x0A, 6, 0x8A, 0x7850AB00);
    chip.transaction(rt, true, false, &[0xC3]);
    // 17, then s 4 r 4: 88. LEN 4/4. No acknowledge, bit 6, and no byte is taken: 00 40 00 00.
    chip.ask(rt, 0x0A, 4, 0x8E, 0x78500000);
    chip.transaction(rt, false, false, &[0xC3]);
}

// NBYTE is 5.
fn multiple_starts(rt: &impl Print, chip: &mut Chip) {
    // 17, then s 5 r 5: AA. LEN 4/6. 00 04 00 00.
    chip.ask(rt, 0x0A, 4, 0xDA, 0x50000000);
    chip.transaction(rt, true, false, &[0xC3]);
    // 17, then s 6 r 6: CC. LEN 4/4. Bytes 0 to 4 become A1 A2 A3 00 00: 00 04 00 00.
    chip.ask(rt, 0x0A, 4, 0xDE, 0x50000000);
    chip.transaction(rt, true, false, &[0xA1, 0xA2, 0xA3]);
    // s 7 r 7: EE. LEN 0/4. Bytes 0 to 3 are A1 A2 A3 00: A2 A1 00 A3.
    chip.ask(rt, 0x0A, 0, 0x41, 0);
    // s 0 r 0: 00. LEN 0/4. Bytes 4 to 7 are 00 06 07 08: 06 00 08 07.
    chip.ask(rt, 0x0A, 0, 0x51, 0);
    // 17, then s 1 r 1: 22. LEN 2/2. 00 04 00 00.
    chip.ask(rt, 0x0A, 2, 0xE2, 0x78500000);
    chip.transaction(rt, true, false, &[0xC3]);
    // 17, then s 2 r 2: 44. LEN 2/2. The line is low, bit 3: 00 08 00 00.
    chip.ask(rt, 0x0A, 2, 0xE6, 0x78500000);
    chip.transaction(rt, true, true, &[0xB1]);
    // s 3 r 3: 66. LEN 0/4. No byte was taken: A2 A1 00 A3.
    chip.ask(rt, 0x0A, 0, 0x41, 0);
}

fn modifying_starts(rt: &impl Print, chip: &mut Chip) {
    // 17: r is 4; s stays 4.
    chip.ask(rt, 0x0A, 2, 0xC2, 0x50000000);
    // s 4 r 5: A8. The master is busy: ERR 40, LEN 2, so that the code is not looked at.
    chip.ask(rt, 0x0A, 0, 0x99, 0);
    // s 5 r 5: AA. LEN 2/2. 00 04 00 00.
    chip.transaction(rt, true, false, &[0xC3]);
    // s 6 r 6: CC. The code is unknown: ERR 04, LEN 2, and bit 5 of STATUS is set from now on.
    chip.ask(rt, 0x0A, 0, 0x99, 0);
    // s 7 r 7: EE. LEN 0/1. STATUS is 24: 00 24 00 00.
    chip.ask(rt, 0x0A, 0, 0x11, 0);
    // 17, then s 0 r 0: 00. LEN 2/2. 00 24 00 00.
    chip.ask(rt, 0x0A, 2, 0xC6, 0x50000000);
    chip.transaction(rt, true, false, &[0xC3]);
    // 17, then s 1 r 1: 22. LEN 2/2. No acknowledge and the line low, bits 6 and 3: 00 68 00 00.
    chip.ask(rt, 0x0A, 2, 0xCA, 0x50000000);
    chip.transaction(rt, false, true, &[0xC3]);
    // 15: the master is not busy any more.
    chip.transaction(rt, true, false, &[0xC3]);
}

fn commands(rt: &impl Print, chip: &mut Chip) {
    // TEST on port 1, bit 4 clear: 00 63. Port 1 is in loopback.
    chip.frame(rt, 1, &[0x00, 0xE3]);
    // Port 1 sends back what it gets, though it is not active and this is no request: 00 02 AB.
    chip.frame(rt, 1, &[0x00, 0x02, 0xAB]);
    // CONNECT on port 1, bit 4 set: 00 73. Port 1 is active, s and r are 0, no port is in loopback.
    chip.frame(rt, 1, &[0x00, 0x3F]);
    // 12: port 0 is not active.
    chip.ask(rt, 0x00, 2, 0x03, 0);
    // RESET on port 0, bit 4 clear: 00 63. Port 0 is active, s and r are 0, every register is 0.
    chip.frame(rt, 0, &[0x00, 0x8F]);
    // s 0 r 1: 20. LEN 2/4. CRB is 00.
    chip.ask(rt, 0x00, 2, 0x03, 0);
}

fn main(rt: HostRuntime) {
    let mut chip = Chip::new(0x00000A);
    controller(&rt, &mut chip);
    spi_settings(&rt, &mut chip);
    spi_data(&rt, &mut chip);
    spi_transfer(&rt, &mut chip);
    lines(&rt, &mut chip);
    samples(&rt, &mut chip);
    upsets_and_id(&rt, &mut chip);
    outputs(&rt, &mut chip);
    master_settings(&rt, &mut chip);
    master_data(&rt, &mut chip);
    single_starts(&rt, &mut chip);
    multiple_starts(&rt, &mut chip);
    modifying_starts(&rt, &mut chip);
    commands(&rt, &mut chip);
}
