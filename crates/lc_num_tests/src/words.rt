// The first words of the generator's reference program, whose seed is 42 and whose stream is 54.
use lc_words::Stream;
use std::test::*;

#[test]
fn words_of_the_reference_program(rt: HostRuntime) {
    let mut stream = Stream::new(42, 54);
    for word in [
        0xa15c_02b7,
        0x7b47_f409,
        0xba1d_3330,
        0x83d2_f293,
        0xbfa4_784b,
        0xcbed_606e,
    ] {
        assert_eq!(rt; stream.next_word(), word);
    }
}
