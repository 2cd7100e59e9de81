//! An image of four entries in the second layout that is cut and forged, and what restoring answers, both under the
//! first fixture's version. `tests/models/forged_images.py` writes this file from the format alone.

/// The image, in hex digits.
pub const IMAGE: &str =
    "4e50533243000044fc0000000400000000000000000361cc820100000002c3a200000003e284ab0100000002c385000000014100";

/// A row for each change of the image, with `; ` between rows: the place, how many bytes go, those that come instead in
/// hex digits (`-` for none, several ways divided by commas), and what restoring with a room of 5 answers; behind
/// `restored` the image of the node.
pub const ANSWERS: &str = "\
0 52 - malformed at byte 0; 0 1 00,01,4d,4f,7f,80,ff malformed at byte 0; 1 51 - malformed at byte 0; 1 1 \
00,01,4f,51,7f,80,ff malformed at byte 0; 2 50 - malformed at byte 0; 2 1 00,01,52,54,7f,80,ff malformed at byte 0; \
3 49 - malformed at byte 0; 3 1 00,01 malformed at byte 0; 3 1 31 malformed at byte 25; 3 1 33,7f,80,ff malformed \
at byte 0; 4 48 - malformed at byte 4; 4 1 00,01,42 malformed at byte 4; 4 1 44 another form; 4 1 7f,80,ff \
malformed at byte 4; 5 47 - malformed at byte 5; 5 1 00 restored \
4e50533243000044fc0000000400000000000000000361cc820100000002c3a200000003e284ab0100000002c385000000014100; 5 1 01 \
older tables: need 16794876 code points, have 17660; 5 1 7f older tables: need 2130724092 code points, have 17660; \
5 1 80 older tables: need 2147501308 code points, have 17660; 5 1 ff older tables: need 4278207740 code points, \
have 17660; 6 46 - malformed at byte 5; 6 1 01 older tables: need 83196 code points, have 17660; 6 1 7f older \
tables: need 8340732 code points, have 17660; 6 1 80 older tables: need 8406268 code points, have 17660; 6 1 ff \
older tables: need 16729340 code points, have 17660; 7 45 - malformed at byte 5; 7 1 00,01,43 restored \
4e50533243000044fc0000000400000000000000000361cc820100000002c3a200000003e284ab0100000002c385000000014100; 7 1 45 \
older tables: need 17916 code points, have 17660; 7 1 7f older tables: need 32764 code points, have 17660; 7 1 80 \
older tables: need 33020 code points, have 17660; 7 1 ff older tables: need 65532 code points, have 17660; 8 44 - \
malformed at byte 5; 8 1 00,01,7f,80,fb restored \
4e50533243000044fc0000000400000000000000000361cc820100000002c3a200000003e284ab0100000002c385000000014100; 8 1 fd \
older tables: need 17661 code points, have 17660; 8 1 ff older tables: need 17663 code points, have 17660; 9 43 - \
malformed at byte 9; 9 1 01,7f,80,ff malformed at byte 52; 10 42 - malformed at byte 9; 10 1 01,7f,80,ff malformed \
at byte 52; 11 41 - malformed at byte 9; 11 1 01,7f,80,ff malformed at byte 52; 12 40 - malformed at byte 9; 12 1 \
00 malformed at byte 13; 12 1 01 malformed at byte 18; 12 1 03 malformed at byte 46; 12 1 05,7f,80,ff malformed at \
byte 52; 13 39 - malformed at byte 13; 13 1 01,7f,80,ff malformed at byte 17; 14 38 - malformed at byte 13; 14 1 \
01,7f,80,ff malformed at byte 17; 15 37 - malformed at byte 13; 15 1 01,7f,80,ff malformed at byte 17; 16 36 - \
malformed at byte 13; 16 1 01 malformed at byte 23; 16 1 7f,80,ff malformed at byte 17; 17 35 - malformed at byte \
17; 17 1 01 malformed at byte 29; 17 1 7f,80,ff malformed at byte 17; 18 34 - malformed at byte 18; 18 1 \
01,7f,80,ff malformed at byte 22; 19 33 - malformed at byte 18; 19 1 01,7f,80,ff malformed at byte 22; 20 32 - \
malformed at byte 18; 20 1 01,7f,80,ff malformed at byte 22; 21 31 - malformed at byte 18; 21 1 00 malformed at \
byte 22; 21 1 01 malformed at byte 23; 21 1 02 malformed at byte 24; 21 1 04 malformed at byte 31; 21 1 7f,80,ff \
malformed at byte 22; 22 30 - malformed at byte 22; 22 1 00 entry 1: unassigned 0000 at byte 0; 22 1 01 entry 1: \
unassigned 0001 at byte 0; 22 1 60 entry 1: unassigned 0060 at byte 0; 22 1 62 entry 1: unassigned 0062 at byte 0; \
22 1 7f entry 1: unassigned 007F at byte 0; 22 1 80,ff entry 1: not UTF-8 at byte 0; 23 29 - malformed at byte 22; \
23 1 00,01,7f entry 1: not UTF-8 at byte 2; 23 1 80 entry 1: not UTF-8 at byte 1; 23 1 cb entry 1: unassigned 02C2 \
at byte 1; 23 1 cd entry 1: unassigned 0342 at byte 1; 23 1 ff entry 1: not UTF-8 at byte 1; 24 28 - malformed at \
byte 22; 24 1 00,01,7f entry 1: not UTF-8 at byte 1; 24 1 80 entry 1: unassigned 0300 at byte 1; 24 1 81 entry 1: \
key differs; 24 1 83 entry 1: unassigned 0303 at byte 1; 24 1 ff entry 1: not UTF-8 at byte 1; 25 27 - malformed at \
byte 25; 25 1 00 malformed at byte 37; 25 1 02,7f,80,ff malformed at byte 25; 26 26 - malformed at byte 26; 26 1 \
01,7f,80,ff malformed at byte 30; 27 25 - malformed at byte 26; 27 1 01,7f,80,ff malformed at byte 30; 28 24 - \
malformed at byte 26; 28 1 01,7f,80,ff malformed at byte 30; 29 23 - malformed at byte 26; 29 1 00 malformed at \
byte 34; 29 1 01 malformed at byte 35; 29 1 03 malformed at byte 37; 29 1 7f,80,ff malformed at byte 30; 30 22 - \
malformed at byte 30; 30 1 00,01,7f,80,c2,c4,ff entry 1: key differs; 31 21 - malformed at byte 30; 31 1 \
00,01,7f,80,a1,a3,ff entry 1: key differs; 32 20 - malformed at byte 32; 32 1 01,7f,80,ff malformed at byte 36; 33 \
19 - malformed at byte 32; 33 1 01,7f,80,ff malformed at byte 36; 34 18 - malformed at byte 32; 34 1 01,7f,80,ff \
malformed at byte 36; 35 17 - malformed at byte 32; 35 1 00 malformed at byte 36; 35 1 01 malformed at byte 37; 35 \
1 02 malformed at byte 38; 35 1 04 malformed at byte 45; 35 1 7f,80,ff malformed at byte 36; 36 16 - malformed at \
byte 36; 36 1 00,01,7f entry 2: not UTF-8 at byte 1; 36 1 80 entry 2: not UTF-8 at byte 0; 36 1 e1 entry 2: \
unassigned 112B at byte 0; 36 1 e3 entry 2: unassigned 312B at byte 0; 36 1 ff entry 2: not UTF-8 at byte 0; 37 15 \
- malformed at byte 36; 37 1 00,01,7f entry 2: not UTF-8 at byte 0; 37 1 80 entry 2: unassigned 202B at byte 0; 37 \
1 83 entry 2: unassigned 20EB at byte 0; 37 1 85 entry 2: unassigned 216B at byte 0; 37 1 ff entry 2: not UTF-8 at \
byte 0; 38 14 - malformed at byte 36; 38 1 00,01,7f entry 2: not UTF-8 at byte 0; 38 1 80 entry 2: unassigned 2100 \
at byte 0; 38 1 aa entry 2: unassigned 212A at byte 0; 38 1 ac entry 2: unassigned 212C at byte 0; 38 1 ff entry 2: \
not UTF-8 at byte 0; 39 13 - malformed at byte 39; 39 1 00 malformed at byte 47; 39 1 02,7f,80,ff malformed at byte \
39; 40 12 - malformed at byte 40; 40 1 01,7f,80,ff malformed at byte 44; 41 11 - malformed at byte 40; 41 1 \
01,7f,80,ff malformed at byte 44; 42 10 - malformed at byte 40; 42 1 01,7f,80,ff malformed at byte 44; 43 9 - \
malformed at byte 40; 43 1 00 malformed at byte 48; 43 1 01 malformed at byte 49; 43 1 03 malformed at byte 51; 43 \
1 7f,80,ff malformed at byte 44; 44 8 - malformed at byte 44; 44 1 00,01,7f,80,c2,c4,ff entry 2: key differs; 45 7 \
- malformed at byte 44; 45 1 00,01,7f,80,84,86,ff entry 2: key differs; 46 6 - malformed at byte 46; 46 1 \
01,7f,80,ff malformed at byte 50; 47 5 - malformed at byte 46; 47 1 01,7f,80,ff malformed at byte 50; 48 4 - \
malformed at byte 46; 48 1 01,7f,80,ff malformed at byte 50; 49 3 - malformed at byte 46; 49 1 00 malformed at byte \
50; 49 1 02 malformed at byte 52; 49 1 7f,80,ff malformed at byte 50; 50 2 - malformed at byte 50; 50 1 00 entry 3: \
unassigned 0000 at byte 0; 50 1 01 entry 3: unassigned 0001 at byte 0; 50 1 40 entry 3: unassigned 0040 at byte 0; \
50 1 42 entry 3: unassigned 0042 at byte 0; 50 1 7f entry 3: unassigned 007F at byte 0; 50 1 80,ff entry 3: not \
UTF-8 at byte 0; 51 1 - malformed at byte 51; 51 1 01 malformed at byte 52; 51 1 7f,80,ff malformed at byte 51; 5 4 \
00000000,00000001 restored \
4e50533243000044fc0000000400000000000000000361cc820100000002c3a200000003e284ab0100000002c385000000014100; 5 4 \
7fffffff older tables: need 2147483647 code points, have 17660; 5 4 ffffffff older tables: need 4294967295 code \
points, have 17660; 9 4 7fffffff,ffffffff malformed at byte 52; 13 4 7fffffff,ffffffff malformed at byte 17; 18 4 \
7fffffff,ffffffff malformed at byte 22; 26 4 7fffffff,ffffffff malformed at byte 30; 32 4 7fffffff,ffffffff \
malformed at byte 36; 40 4 7fffffff,ffffffff malformed at byte 44; 46 4 7fffffff,ffffffff malformed at byte 50; 17 \
1 0100000000 malformed at byte 17; 17 1 010000000141 entry 0: key differs; 17 1 01000000,0200000000 malformed at \
byte 17; 25 7 00 entry 1: key differs; 25 7 010000000361cc82 malformed at byte 25; 25 7 0100000003c3a241 entry 1: \
key differs; 25 7 010000000361cc malformed at byte 37; 39 7 00 entry 2: key differs; 39 7 0100000003e284ab \
malformed at byte 39; 39 7 0100000003c38541 entry 2: key differs; 39 7 0100000003e284 malformed at byte 51; 51 1 \
010000000141 malformed at byte 51; 51 1 01000000024141 entry 3: key differs; 51 1 0100000001 malformed at byte 56; \
51 1 020000000141 malformed at byte 51; 0 5 434e505332 malformed at byte 0; 0 9 000044fc434e505332 malformed at \
byte 0; 0 13 0000000443000044fc4e505332 malformed at byte 0; 0 17 0000000043000044fc000000044e505332 malformed at \
byte 0; 4 5 000044fc43 malformed at byte 4; 4 9 00000004000044fc43 malformed at byte 4; 4 13 \
00000000000044fc0000000443,000044fc000000040000000043 malformed at byte 4; 5 8 00000004000044fc malformed at byte \
52; 5 12 0000000000000004000044fc malformed at byte 17; 5 12 0000000400000000000044fc malformed at byte 13; 5 13 \
000000000400000000000044fc malformed at byte 17; 9 8 0000000000000004 malformed at byte 13; 9 9 000000000000000004 \
malformed at byte 13; 9 13 00000003000000000000000004 malformed at byte 31; 13 9 000000030000000000 malformed at \
byte 25; 13 12 61cc82000000000300000000 malformed at byte 17; 17 5 0000000300 malformed at byte 22; 17 8 \
61cc820000000003 malformed at byte 17; 17 9 01000000000361cc82 malformed at byte 17; 17 8 61cc820000000300 \
malformed at byte 17; 17 9 010000000361cc8200 malformed at byte 29; 17 13 000000020000000361cc820100 malformed at \
byte 22; 18 7 61cc8200000003 malformed at byte 22; 18 8 0161cc8200000003 malformed at byte 22; 18 12 \
0000000261cc820100000003 malformed at byte 24; 18 14 c3a261cc82010000000200000003 malformed at byte 22; 22 4 \
0161cc82 malformed at byte 25; 22 8 000000020161cc82 malformed at byte 25; 22 10 c3a2010000000261cc82 malformed at \
byte 30; 22 14 000000030100000002c3a261cc82 malformed at byte 25; 25 5 0000000201 malformed at byte 30; 25 7 \
c3a20000000201 malformed at byte 25; 25 11 0000000300000002c3a201 malformed at byte 30; 25 14 \
e284ab00000002c3a20000000301 malformed at byte 25; 26 6 c3a200000002 malformed at byte 30; 26 10 \
00000003c3a200000002 malformed at byte 37; 26 13 e284abc3a20000000300000002 malformed at byte 30; 26 14 \
01c3a200000003e284ab00000002 malformed at byte 30; 30 6 00000003c3a2 malformed at byte 36; 30 9 e284ab00000003c3a2 \
malformed at byte 36; 30 10 0100000003e284abc3a2 malformed at byte 36; 30 14 0000000200000003e284ab01c3a2 malformed \
at byte 36; 32 7 e284ab00000003 malformed at byte 36; 32 8 01e284ab00000003 malformed at byte 36; 32 12 \
00000002e284ab0100000003 malformed at byte 38; 32 14 c385e284ab010000000200000003 malformed at byte 36; 36 4 \
01e284ab malformed at byte 39; 36 8 0000000201e284ab malformed at byte 39; 36 10 c3850100000002e284ab malformed at \
byte 44; 36 14 000000010100000002c385e284ab malformed at byte 44; 39 5 0000000201 malformed at byte 44; 39 7 \
c3850000000201 malformed at byte 39; 39 11 0000000100000002c38501 malformed at byte 44; 39 12 \
4100000002c3850000000101 malformed at byte 39; 40 6 c38500000002 malformed at byte 44; 40 10 00000001c38500000002 \
malformed at byte 49; 40 11 41c3850000000100000002 malformed at byte 44; 40 12 00c385000000014100000002 malformed \
at byte 44; 44 6 00000001c385 malformed at byte 50; 44 7 4100000001c385 malformed at byte 50; 44 8 000000000141c385 \
malformed at byte 50; 46 5 4100000001 malformed at byte 50; 46 6 004100000001 malformed at byte 50; 50 2 0041 \
malformed at byte 51; 12 39 \
0500000000000000000361cc820100000002c3a200000003e284ab0100000002c38500000001410000000000 entry 4: malformed at byte \
52; 52 0 0000000000 malformed at byte 52; 12 6 03 restored \
4e50533243000044fc000000030000000361cc820100000002c3a200000003e284ab0100000002c385000000014100; 16 5 - malformed at \
byte 47; 12 39 0600000000000000000361cc820100000002c3a200000003e284ab0100000002c385000000014100000000000000000000 \
full; 52 0 00000000000000000000 malformed at byte 52; 16 16 0361cc820100000002c3a20000000000 restored \
4e50533243000044fc000000040000000361cc820100000002c3a2000000000000000003e284ab0100000002c385000000014100; 12 40 \
0500000000000000000361cc820100000002c3a200000003e284ab0100000002c3850000000141000000000361cc820100000002c3a2 entry \
4: malformed at byte 52; 52 0 0000000361cc820100000002c3a2 malformed at byte 52; 12 20 030000000000 restored \
4e50533243000044fc00000003000000000000000003e284ab0100000002c385000000014100; 22 14 - malformed at byte 38; 12 40 \
0600000000000000000361cc820100000002c3a200000003e284ab0100000002c3850000000141000000000361cc820100000002c3a20000000361cc820100000002c3a2 \
full; 52 0 0000000361cc820100000002c3a20000000361cc820100000002c3a2 malformed at byte 52; 21 11 \
02c3a2010000000361cc82 entry 1: key differs; 22 24 e284ab0100000002c3850000000361cc820100000002c3a2 restored \
4e50533243000044fc00000004000000000000000003e284ab0100000002c3850000000361cc820100000002c3a2000000014100; 12 40 \
0500000000000000000361cc820100000002c3a200000003e284ab0100000002c38500000001410000000003e284ab0100000002c385 entry \
4: malformed at byte 52; 52 0 00000003e284ab0100000002c385 malformed at byte 52; 12 34 \
0300000000000000000361cc820100000002c3a2 restored \
4e50533243000044fc0000000300000000000000000361cc820100000002c3a2000000014100; 35 14 - malformed at byte 38; 12 40 \
0600000000000000000361cc820100000002c3a200000003e284ab0100000002c38500000001410000000003e284ab0100000002c38500000003e284ab0100000002c385 \
full; 52 0 00000003e284ab0100000002c38500000003e284ab0100000002c385 malformed at byte 52; 35 11 \
02c3850100000003e284ab entry 2: key differs; 35 17 01410000000003e284ab0100000002c385 restored \
4e50533243000044fc0000000400000000000000000361cc820100000002c3a200000001410000000003e284ab0100000002c385; 12 34 \
0500000000000000000361cc820100000002c3a200000003e284ab0100000002c385000000014100 entry 4: malformed at byte 52; 52 \
0 000000014100 malformed at byte 52; 12 40 0300000000000000000361cc820100000002c3a200000003e284ab0100000002c385 \
restored 4e50533243000044fc0000000300000000000000000361cc820100000002c3a200000003e284ab0100000002c385; 12 34 \
0600000000000000000361cc820100000002c3a200000003e284ab0100000002c385000000014100000000014100 full; 52 0 \
000000014100000000014100 malformed at byte 52";
