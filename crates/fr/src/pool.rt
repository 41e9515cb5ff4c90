// The French texts, those that overlap sharing their bytes; `_` brings the next to an even byte. Made by tools/gen_words.py.
pub const SIZE: usize = 716;

// How many of its bytes, from the first on, have no space; how many spaces stand before each of the others, and before its end.
pub const UNSPACED: usize = 636;

pub const COUNTS: [u8; 81] =
    *b"\x00\x00\x00\x00\x00\x00\x00\x01\x01\x01\x01\x01\x01\x01\x01\x01\x01\x02\x02\x02\x02\x02\x02\x02\
    \x02\x02\x02\x03\x03\x03\x03\x03\x03\x03\x03\x03\x03\x04\x04\x04\x04\x04\x04\x04\x04\x04\x04\x05\
    \x05\x05\x05\x05\x05\x05\x05\x05\x05\x05\x06\x06\x06\x06\x06\x06\x06\x06\x07\x07\x07\x07\x07\x07\
    \x07\x07\x07\x08\x08\x08\x08\x08\x08";

pub const POOL: [u8; SIZE] =
    *b"cinquante_dix-neufquarantequatorzenonante_quinzetreizetrentedouze_i\xc3\xa8me_mille_seize_centde\
    uxonzedix-septantedix-huitantevingtroisoixanteunetquatre-vingtsix_quattuord\xc3\xa9cilliardsquat\
    tuord\xc3\xa9cillions_quind\xc3\xa9cilliardstr\xc3\xa9d\xc3\xa9cilliardsduod\xc3\xa9cilliards_qu\
    ind\xc3\xa9cillions_duod\xc3\xa9cillionsunod\xc3\xa9cillionsquadrilliards_quintilliards_quadrill\
    ionsquatre-centsquintillionsnonilliards_octilliards_cinq-centsdeux-centshuit-centsneuf-centsnoni\
    llionstrilliardsbilliards_milliards_billionsmillionspremier_moins_z\xc3\xa9roctillionsunod\xc3\
    \xa9cilliardsix-centsextillionsextilliardstr\xc3\xa9d\xc3\xa9cillionsexd\xc3\xa9cillionstrois-ce\
    ntsexd\xc3\xa9cilliardseptillionseptilliardstrillionsept-centsquatre centscinq centsdeux centshu\
    it centsneuf centstrois centsix centsept cents";
