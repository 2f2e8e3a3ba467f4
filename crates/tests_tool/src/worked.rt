//! The worked cases that have words and an input, one after another over the tool's one call. `tools/worked_cases.py`
//! writes these texts from examples/, where the cases are described.
use crate::calls::Tool;
use crate::cases::{Way, cases_come};
use std::test::Fail;

// Data with one packet that is overtaken, and options in a Request, in pieces of any length.
const IN_PIECES: &str = "\
~ run\n# The usual ends, and data of the client. The frame c4 overtakes c3, which then comes below the floor of the Ack Vectors:\n\
# it is taken, and its data is not delivered. Two data packets are in flight at the end.\nopen\ndeliver c0\ndeliver s0\ndeliver c1\ndeliver s1\nsend client aa\nsend client bb\nsend client cc\n\
deliver c2\ndeliver c4\ndeliver s2\nsend client dd\ndeliver c5\ndeliver c3\ntimer server ack\n=> Done\n3 open: ok\nsent c0 9c401389080000b601000000000003e80000002a012004040101220406010000\n\
4 deliver c0: took\nsent s0 13899c400d00a1c303000000000007d000000000000003e80000002a230604010100210606010100012004040101220406010000\n5 deliver s0: took\n\
sent c1 9c4013890a00eadd07000000000003e900000000000007d026030023060401010021060601010000\n6 deliver c1: took\nsent s1 13899c400700fb3807000000000007d100000000000003e926030100\n7 deliver s1: took\n\
8 send client aa: ok\nsent c2 9c4013890700503609000000000003ea00000000000007d126030000aa\n9 send client bb: ok\nsent c3 9c4013890400741505000000000003ebbb\n10 send client cc: ok\n\
sent c4 9c4013890400631405000000000003eccc\n11 deliver c2: took data aa\n12 deliver c4: took data cc\nsent s2 13899c400800fa6e07000000000007d200000000000003ec260500c000000000\n13 deliver s2: took\n\
14 send client dd: ok\nsent c5 9c40138907001c3209000000000003ed00000000000007d226030100dd\n15 deliver c5: took data dd\n16 deliver c3: took\n17 timer server ack: fired\n\
sent s3 13899c400700fc3207000000000007d300000000000003ed26030000\nend client OPEN window 5 flight 2 1=2/2 2=0/0 3=100/100 4=1/1 5=2/2 6=1/1 7=0/0 8=0/0 9=0/0\n\
end server OPEN window 4 flight 0 1=2/2 2=0/0 3=100/100 4=1/1 5=2/2 6=1/1 7=0/0 8=0/0 9=0/0\n~ replay,--side,server,--plain\n# replay --side server --plain\n\
seal 9c4013890600000001000000000003e80000002a00000001\n\n=> Done\n2: sent reset 5 1 0 0\nsent s0 13899c400700153d0f000000000007d000000000000003e805010000\n\
end server CLOSED window 4 flight 0 1=2/2 2=0/0 3=100/100 4=0/0 5=2/2 6=0/0 7=0/0 8=0/0 9=0/0\n~ replay,--side,server,--plain\n\n\n\n# replay --side server --plain\n\
# Mandatory before Padding is no fault.\nseal 9c4013890600000001000000000003e80000002a01000000\n\n=> Done\n6: took\nsent s0 13899c400700261403000000000007d000000000000003e80000002a\n\
end server RESPOND window 4 flight 0 1=2/2 2=0/0 3=100/100 4=0/0 5=2/2 6=0/0 7=0/0 8=0/0 9=0/0\n~ replay,--side,server,--plain\n\n\n\n\n\n\n\n# replay --side server --plain\n\
# An option 32 of length 1 ends the list.\nseal 9c4013890600000001000000000003e80000002a20010000\n=> Done\n10: took\nsent s0 13899c400700261403000000000007d000000000000003e80000002a\n\
end server RESPOND window 4 flight 0 1=2/2 2=0/0 3=100/100 4=0/0 5=2/2 6=0/0 7=0/0 8=0/0 9=0/0\n~ replay,--side,server,--plain\n# replay --side server --plain\n\
# Options that change nothing: without Mandatory those that are not understood, and those that are understood but have no effect here.\n\n# Each Request is answered by a Response without options.\n\n\
# Request 1000, Change L of no feature: without Mandatory\n9c401389060010e601000000000003e80000002a20020000\n# Request 1001, Confirm R of no feature\n9c40138906000de501000000000003e90000002a23020000\n\
# Request 1002, Elapsed Time of 1 byte\n9c4013890600fee201000000000003ea0000002a2b030700\n# Request 1003, NDP Count of 7 bytes\n9c4013890800f9c701000000000003eb0000002a250901020304050607000000\n\
# Request 1004, Init Cookie of 2 bytes\n9c401389060002d501000000000003ec0000002a24040a0b\n# Request 1005, option 128 of 0 bytes\n9c4013890600b0e001000000000003ed0000002a80020000\n\
# Request 1006, option 3\n9c40138906002de201000000000003ee0000002a03000000\n# Request 1007, Mandatory before Padding\n9c40138906002fe101000000000003ef0000002a01000000\n\
# Request 1008, option 32 of length 1: it ends the list\n9c401389060010df01000000000003f00000002a20010000\n# Request 1009, Mandatory Elapsed Time of 2 bytes: understood\n\
9c401389070023b001000000000003f10000002a012b040007000000\n# Request 1010, Confirm L 1 of 2: nothing was asked\n9c40138906000ed801000000000003f20000002a21040102\n# Request 1011, Confirm R 1 of 2\n\
9c40138906000cd701000000000003f30000002a23040102\n\n# An Ack with an Ack Vector opens the server as one without.\n\n# Ack 1012 of 2011, vector 00\n\
9c4013890700fc2307000000000003f400000000000007db26030000\n\n# Each of these is understood, and so Mandatory is no fault. No Ack is answered.\n\n# Ack 1013 of 2012, Mandatory Slow Receiver\n\
9c4013890700212307000000000003f500000000000007dc01020000\n# Ack 1014 of 2012, vector 00\n9c4013890700fc2007000000000003f600000000000007dc26030000\n# Ack 1015 of 2012, vector 00 of nonce 1\n\
9c4013890700fb1f07000000000003f700000000000007dc27030000\n# Ack 1016 of 2012, Mandatory vector 00\n9c40138907001dfc07000000000003f800000000000007dc01260300\n\
# Ack 1017 of 2012, Mandatory vector of no bytes of nonce 1\n9c40138907001efa07000000000003f900000000000007dc01270200\n# Ack 1018 of 2012, Mandatory Data Dropped of 0 bytes\n\
9c40138907001ef807000000000003fa00000000000007dc01280200\n# Ack 1019 of 2012, Mandatory Data Dropped of 1 byte\n9c40138907001df007000000000003fb00000000000007dc01280307\n\
# Ack 1020 of 2012, Mandatory Timestamp of 4 bytes\n9c401389080007e107000000000003fc00000000000007dc0129060708090a00\n# Ack 1021 of 2012, Mandatory Timestamp Echo of 4 bytes\n\
9c401389080007df07000000000003fd00000000000007dc012a060708090a00\n# Ack 1022 of 2012, Mandatory Timestamp Echo of 6 bytes\n9c4013890900f8ce07000000000003fe00000000000007dc012a080708090a0b0c000000\n\
# Ack 1023 of 2012, Mandatory Timestamp Echo of 8 bytes\n9c4013890900e8c007000000000003ff00000000000007dc012a0a0708090a0b0c0d0e00\n# Ack 1024 of 2012, Mandatory NDP Count of 1 byte\n\
9c40138907001dee070000000000040000000000000007dc01250307\n# Ack 1025 of 2012, Mandatory NDP Count of 6 bytes\n9c4013890900f8d0070000000000040100000000000007dc0125080708090a0b0c000000\n\
# Ack 1026 of 2012, Mandatory Elapsed Time of 2 bytes\n9c401389080013e2070000000000040200000000000007dc012b040708000000\n# Ack 1027 of 2012, Mandatory Elapsed Time of 4 bytes\n\
9c401389080007d8070000000000040300000000000007dc012b060708090a00\n# Ack 1028 of 2012, Mandatory Data Checksum of 4 bytes\n9c401389080007d6070000000000040400000000000007dc012c060708090a00\n\n\
# Mandatory before Padding is Padding: the option after it is not marked, and the empty Confirm goes out.\n\n# Ack 1029 of 2012, Mandatory before Padding, Change L 10 of 1\n\
9c4013890800f60b070000000000040500000000000007dc010020040a010000\n\n# What is answered before its options are read, or is out of place, has no options that count.\n\n# Request 1030, Change L 1 of 2\n\
9c40138906000fc401000000000004060000002a20040102\n# Reset 1031 of 2014, code 2, Change L 1 of 2\n9c4013890800f6060f0000000000040700000000000007de0200000020040102\n\n=> Done\n7: took\n\
sent s0 13899c400700261403000000000007d000000000000003e80000002a\n9: took\nsent s1 13899c400700261203000000000007d100000000000003e90000002a\n11: took\n\
sent s2 13899c400700261003000000000007d200000000000003ea0000002a\n13: took\nsent s3 13899c400700260e03000000000007d300000000000003eb0000002a\n15: took\n\
sent s4 13899c400700260c03000000000007d400000000000003ec0000002a\n17: took\nsent s5 13899c400700260a03000000000007d500000000000003ed0000002a\n19: took\n\
sent s6 13899c400700260803000000000007d600000000000003ee0000002a\n21: took\nsent s7 13899c400700260603000000000007d700000000000003ef0000002a\n23: took\n\
sent s8 13899c400700260403000000000007d800000000000003f00000002a\n25: took\nsent s9 13899c400700260203000000000007d900000000000003f10000002a\n27: took\n\
sent s10 13899c400700260003000000000007da00000000000003f20000002a\n29: took\nsent s11 13899c40070025fe03000000000007db00000000000003f30000002a\n34: took\n\
sent s12 13899c400600232a07000000000007dc00000000000003f4\n39: took\n41: took\n43: took\n45: took\n47: took\n49: took\n51: took\n53: took\n55: took\n57: took\n59: took\n61: took\n63: took\n65: took\n\
67: took\n69: took\n74: took\nsent s13 13899c400700f51007000000000007dd000000000000040523030a00\n79: synced 1030\nsent s14 13899c400600191611000000000007de0000000000000406\n81: was reset 2\n\
end server TIMEWAIT window 4 flight 0 1=2/2 2=0/0 3=100/100 4=0/0 5=2/2 6=0/0 7=0/0 8=0/0 9=0/0\n~ replay,--side,server,--plain\n\
\n\n\n\n\n\n\n\n\n\n\n\n\n\n\n\n\n\n\n\n\n\n\n\n\n\n\n\n\n\n\n\n\n\n\n\n\n\n\n\n\n\n\n\n\n\n\n\n\n\n\n\n\n\n\n\n\n\n\n\n\n\n\n\n\n\n\n\n\n\n\n\n\n\n\n\n\n\n\n\n\n\n# replay --side server --plain\n\
# Request 1000\n9c401389050031ec01000000000003e80000002a\n# Ack 1001 of 2000: opens alike\n9c4013890600234107000000000003e900000000000007d0\n\n=> Done\n85: took\n\
sent s0 13899c400700261403000000000007d000000000000003e80000002a\n87: took\nsent s1 13899c400600234007000000000007d100000000000003e9\n\
end server OPEN window 4 flight 0 1=2/2 2=0/0 3=100/100 4=0/0 5=2/2 6=0/0 7=0/0 8=0/0 9=0/0\n~ replay,--side,server,--plain\n\
\n\n\n\n\n\n\n\n\n\n\n\n\n\n\n\n\n\n\n\n\n\n\n\n\n\n\n\n\n\n\n\n\n\n\n\n\n\n\n\n\n\n\n\n\n\n\n\n\n\n\n\n\n\n\n\n\n\n\n\n\n\n\n\n\n\n\n\n\n\n\n\n\n\n\n\n\n\n\n\n\n\n\n\n\n\n\n\n\
# replay --side server --plain\n# Request 1000\n9c401389050031ec01000000000003e80000002a\n# Ack 1001 of 2000, vector 00 of nonce 1: opens alike\n\
9c4013890700fb3907000000000003e900000000000007d027030000\n\n=> Done\n91: took\nsent s0 13899c400700261403000000000007d000000000000003e80000002a\n93: took\n\
sent s1 13899c400600234007000000000007d100000000000003e9\nend server OPEN window 4 flight 0 1=2/2 2=0/0 3=100/100 4=0/0 5=2/2 6=0/0 7=0/0 8=0/0 9=0/0\n~ replay,--side,server,--plain\n\
\n\n\n\n\n\n\n\n\n\n\n\n\n\n\n\n\n\n\n\n\n\n\n\n\n\n\n\n\n\n\n\n\n\n\n\n\n\n\n\n\n\n\n\n\n\n\n\n\n\n\n\n\n\n\n\n\n\n\n\n\n\n\n\n\n\n\n\n\n\n\n\n\n\n\n\n\n\n\n\n\n\n\n\n\n\n\n\n\n\n\n\n\n\n\
# replay --side server --plain\n# Request 1000\n9c401389050031ec01000000000003e80000002a\n# Ack 1001 of 2000, Mandatory vector 00: opens alike\n\
9c40138907001e1707000000000003e900000000000007d001260300\n\n=> Done\n97: took\nsent s0 13899c400700261403000000000007d000000000000003e80000002a\n99: took\n\
sent s1 13899c400600234007000000000007d100000000000003e9\nend server OPEN window 4 flight 0 1=2/2 2=0/0 3=100/100 4=0/0 5=2/2 6=0/0 7=0/0 8=0/0 9=0/0\n~ replay,--side,server,--plain\n\
\n\n\n\n\n\n\n\n\n\n\n\n\n\n\n\n\n\n\n\n\n\n\n\n\n\n\n\n\n\n\n\n\n\n\n\n\n\n\n\n\n\n\n\n\n\n\n\n\n\n\n\n\n\n\n\n\n\n\n\n\n\n\n\n\n\n\n\n\n\n\n\n\n\n\n\n\n\n\n\n\n\n\n\n\n\n\n\n\n\n\n\n\n\n\n\n\n\n\n\n\
# replay --side server --plain\n# Change L and Confirm L, Change R and Confirm R for the CCID on the Request that opens: the Changes are answered.\n\n# Request 1000, Change L 1 of 2\n\
9c40138906000fe201000000000003e80000002a20040102\n\n=> Done\n105: took\nsent s0 13899c400900fd0b03000000000007d000000000000003e80000002a2306010202f80000\n\
end server RESPOND window 4 flight 0 1=2/2 2=0/0 3=100/100 4=0/0 5=2/2 6=0/0 7=0/0 8=0/0 9=0/0\n~ replay,--side,server,--plain\n\
\n\n\n\n\n\n\n\n\n\n\n\n\n\n\n\n\n\n\n\n\n\n\n\n\n\n\n\n\n\n\n\n\n\n\n\n\n\n\n\n\n\n\n\n\n\n\n\n\n\n\n\n\n\n\n\n\n\n\n\n\n\n\n\n\n\n\n\n\n\n\n\n\n\n\n\n\n\n\n\n\
\n\n\n\n\n\n\n\n\n\n\n\n\n\n\n\n\n\n\n\n\n\n\n\n\n\n# replay --side server --plain\n# Request 1000, Confirm L 1 of 2\n9c40138906000ee201000000000003e80000002a21040102\n\n=> Done\n109: took\n\
sent s0 13899c400700261403000000000007d000000000000003e80000002a\nend server RESPOND window 4 flight 0 1=2/2 2=0/0 3=100/100 4=0/0 5=2/2 6=0/0 7=0/0 8=0/0 9=0/0\n~ replay,--side,server,--plain\n\
\n\n\n\n\n\n\n\n\n\n\n\n\n\n\n\n\n\n\n\n\n\n\n\n\n\n\n\n\n\n\n\n\n\n\n\n\n\n\n\n\n\n\n\n\n\n\n\n\n\n\n\n\n\n\n\n\n\n\n\n\n\n\n\n\n\n\n\n\n\n\n\n\n\n\n\n\n\n\n\n\
\n\n\n\n\n\n\n\n\n\n\n\n\n\n\n\n\n\n\n\n\n\n\n\n\n\n\n\n\n\n# replay --side server --plain\n# Request 1000, Change R 1 of 2\n9c40138906000de201000000000003e80000002a22040102\n\n=> Done\n113: took\n\
sent s0 13899c400900ff0b03000000000007d000000000000003e80000002a2106010202f80000\nend server RESPOND window 4 flight 0 1=2/2 2=0/0 3=100/100 4=0/0 5=2/2 6=0/0 7=0/0 8=0/0 9=0/0\n\
~ replay,--side,server,--plain\n\n\n\n\n\n\n\n\n\n\n\n\n\n\n\n\n\n\n\n\n\n\n\n\n\n\n\n\n\n\n\n\n\n\n\n\n\n\n\n\n\n\n\n\n\n\n\n\n\n\n\n\n\n\n\n\n\n\n\n\n\n\n\n\n\n\n\n\n\n\n\n\n\n\n\n\n\n\n\n\n\
\n\n\n\n\n\n\n\n\n\n\n\n\n\n\n\n\n\n\n\n\n\n\n\n\n\n\n\n\n\n\n\n\n\n# replay --side server --plain\n# Request 1000, Confirm R 1 of 2\n9c40138906000ce201000000000003e80000002a23040102\n\n=> Done\n\
117: took\nsent s0 13899c400700261403000000000007d000000000000003e80000002a\nend server RESPOND window 4 flight 0 1=2/2 2=0/0 3=100/100 4=0/0 5=2/2 6=0/0 7=0/0 8=0/0 9=0/0\n\
~ replay,--side,client,--plain\n\n\n\n\n\n\n\n\n\n\n\n\n\n\n\n\n\n\n\n\n\n\n\n\n\n\n\n\n\n\n\n\n\n\n\n\n\n\n\n\n\n\n\n\n\n\n\n\n\n\n\n\n\n\n\n\n\n\n\n\n\n\n\n\n\n\n\n\n\n\n\n\n\n\n\n\n\n\n\n\n\
\n\n\n\n\n\n\n\n\n\n\n\n\n\n\n\n\n\n\n\n\n\n\n\n\n\n\n\n\n\n\n\n\n\n\n\n\n\n# replay --side client --plain\n# Change L on the Response: the Ack confirms.\n\n# Response 2000 of 1000, Change L 1 of 2\n\
13899c400800040a03000000000007d000000000000003e80000002a20040102\n=> Done\nopen: ok\nsent c0 9c401389050031ec01000000000003e80000002a\n123: took\n\
sent c1 9c4013890800fa3807000000000003e900000000000007d02306010202f80000\nend client PARTOPEN window 4 flight 0 1=2/2 2=0/0 3=100/100 4=0/0 5=2/2 6=0/0 7=0/0 8=0/0 9=0/0\n\
~ replay,--side,server,--plain\n# replay --side server --plain\n\
# Options that are faults. The first one is answered by its Reset: 5 for a Mandatory that marks nothing, and 6 for what Mandatory marks and\n\
# is not understood, with the option's type and the first two bytes of its data. The server is CLOSED then.\n\n# Request 1000, Mandatory at the end: nothing follows it\n\
9c401389060030e701000000000003e80000002a00000001\n\n=> Done\n6: sent reset 5 1 0 0\nsent s0 13899c400700153d0f000000000007d000000000000003e805010000\n\
end server CLOSED window 4 flight 0 1=2/2 2=0/0 3=100/100 4=0/0 5=2/2 6=0/0 7=0/0 8=0/0 9=0/0\n~ replay,--side,server,--plain\n\n\n\n\n\n\n\n# replay --side server --plain\n\
# Request 1000, Mandatory twice, Slow Receiver: it marks itself\n9c40138906002de701000000000003e80000002a01010200\n\n=> Done\n10: sent reset 5 1 0 0\n\
sent s0 13899c400700153d0f000000000007d000000000000003e805010000\nend server CLOSED window 4 flight 0 1=2/2 2=0/0 3=100/100 4=0/0 5=2/2 6=0/0 7=0/0 8=0/0 9=0/0\n~ replay,--side,server,--plain\n\
\n\n\n\n\n\n\n\n\n\n\n# replay --side server --plain\n# Request 1000, Mandatory Elapsed Time of length 1: that option ends the list, as its length counts these two bytes too\n\
9c40138906002ebd01000000000003e80000002a012b0100\n\n=> Done\n14: sent reset 5 1 0 0\nsent s0 13899c400700153d0f000000000007d000000000000003e805010000\n\
end server CLOSED window 4 flight 0 1=2/2 2=0/0 3=100/100 4=0/0 5=2/2 6=0/0 7=0/0 8=0/0 9=0/0\n~ replay,--side,server,--plain\n\n\n\n\n\n\n\n\n\n\n\n\n\n\n\n# replay --side server --plain\n\
# Request 1000, Mandatory Elapsed Time of length 9: that option ends the list: its length goes beyond the area\n9c401389060026bd01000000000003e80000002a012b0900\n\n=> Done\n18: sent reset 5 1 0 0\n\
sent s0 13899c400700153d0f000000000007d000000000000003e805010000\nend server CLOSED window 4 flight 0 1=2/2 2=0/0 3=100/100 4=0/0 5=2/2 6=0/0 7=0/0 8=0/0 9=0/0\n~ replay,--side,server,--plain\n\
\n\n\n\n\n\n\n\n\n\n\n\n\n\n\n\n\n\n\n# replay --side server --plain\n# Request 1000, Mandatory Change L of no feature: it names no feature\n9c40138906002dc801000000000003e80000002a01200200\n\n\
=> Done\n22: sent reset 6 32 0 0\nsent s0 13899c400700141e0f000000000007d000000000000003e806200000\nend server CLOSED window 4 flight 0 1=2/2 2=0/0 3=100/100 4=0/0 5=2/2 6=0/0 7=0/0 8=0/0 9=0/0\n\
~ replay,--side,server,--plain\n\n\n\n\n\n\n\n\n\n\n\n\n\n\n\n\n\n\n\n\n\n\n\n# replay --side server --plain\n# Request 1000, Mandatory Confirm R of no feature: it names no feature\n\
9c40138906002dc501000000000003e80000002a01230200\n\n=> Done\n26: sent reset 6 35 0 0\nsent s0 13899c400700141b0f000000000007d000000000000003e806230000\n\
end server CLOSED window 4 flight 0 1=2/2 2=0/0 3=100/100 4=0/0 5=2/2 6=0/0 7=0/0 8=0/0 9=0/0\n~ replay,--side,server,--plain\n\n\n\n\n\n\n\n\n\n\n\n\n\n\n\n\n\n\n\n\n\n\n\n\n\n\n\n\
# replay --side server --plain\n# Request 1000, Mandatory Elapsed Time of 1 byte: one of 2 or 4 is understood\n9c40138906002cb601000000000003e80000002a012b0307\n\n=> Done\n30: sent reset 6 43 7 0\n\
sent s0 13899c4007000d130f000000000007d000000000000003e8062b0700\nend server CLOSED window 4 flight 0 1=2/2 2=0/0 3=100/100 4=0/0 5=2/2 6=0/0 7=0/0 8=0/0 9=0/0\n~ replay,--side,server,--plain\n\
\n\n\n\n\n\n\n\n\n\n\n\n\n\n\n\n\n\n\n\n\n\n\n\n\n\n\n\n\n\n\n# replay --side server --plain\n# Request 1000, Mandatory NDP Count of 7 bytes: one of 1 to 6 is understood\n\
9c401389080018ab01000000000003e80000002a012509010203040506070000\n\n=> Done\n34: sent reset 6 37 1 2\nsent s0 13899c40070013170f000000000007d000000000000003e806250102\n\
end server CLOSED window 4 flight 0 1=2/2 2=0/0 3=100/100 4=0/0 5=2/2 6=0/0 7=0/0 8=0/0 9=0/0\n~ replay,--side,server,--plain\n\n\n\n\n\n\n\n\n\n\n\n\n\n\n\n\n\n\n\n\n\n\n\n\n\n\n\n\n\n\n\n\n\n\n\n\
# replay --side server --plain\n# Request 1000, Mandatory Init Cookie of 2 bytes: not understood\n9c40138907001fb601000000000003e80000002a0124040a0b000000\n\n=> Done\n38: sent reset 6 36 10 11\n\
sent s0 13899c4007000a0f0f000000000007d000000000000003e806240a0b\nend server CLOSED window 4 flight 0 1=2/2 2=0/0 3=100/100 4=0/0 5=2/2 6=0/0 7=0/0 8=0/0 9=0/0\n~ replay,--side,server,--plain\n\
\n\n\n\n\n\n\n\n\n\n\n\n\n\n\n\n\n\n\n\n\n\n\n\n\n\n\n\n\n\n\n\n\n\n\n\n\n\n\n# replay --side server --plain\n\
# Request 1000, Mandatory option 128 of 0 bytes: those from 128 on belong to a congestion control\n9c40138906002d6801000000000003e80000002a01800200\n\n=> Done\n42: sent reset 6 128 0 0\n\
sent s0 13899c40070013be0f000000000007d000000000000003e806800000\nend server CLOSED window 4 flight 0 1=2/2 2=0/0 3=100/100 4=0/0 5=2/2 6=0/0 7=0/0 8=0/0 9=0/0\n~ replay,--side,server,--plain\n\
\n\n\n\n\n\n\n\n\n\n\n\n\n\n\n\n\n\n\n\n\n\n\n\n\n\n\n\n\n\n\n\n\n\n\n\n\n\n\n\n\n\n\n# replay --side server --plain\n# Request 1000, Mandatory option 3: not known, and of one byte\n\
9c40138906002fe501000000000003e80000002a01030000\n\n=> Done\n46: sent reset 6 3 0 0\nsent s0 13899c400700143b0f000000000007d000000000000003e806030000\n\
end server CLOSED window 4 flight 0 1=2/2 2=0/0 3=100/100 4=0/0 5=2/2 6=0/0 7=0/0 8=0/0 9=0/0\n~ replay,--side,server,--plain\n\
\n\n\n\n\n\n\n\n\n\n\n\n\n\n\n\n\n\n\n\n\n\n\n\n\n\n\n\n\n\n\n\n\n\n\n\n\n\n\n\n\n\n\n\n\n\n\n# replay --side server --plain\n# Request 1000, Mandatory option 99 of 2 bytes: not known\n\
9c4013890700217a01000000000003e80000002a0163040709000000\n\n=> Done\n50: sent reset 6 99 7 9\nsent s0 13899c4007000cd20f000000000007d000000000000003e806630709\n\
end server CLOSED window 4 flight 0 1=2/2 2=0/0 3=100/100 4=0/0 5=2/2 6=0/0 7=0/0 8=0/0 9=0/0\n~ replay,--side,server,--plain\n\
\n\n\n\n\n\n\n\n\n\n\n\n\n\n\n\n\n\n\n\n\n\n\n\n\n\n\n\n\n\n\n\n\n\n\n\n\n\n\n\n\n\n\n\n\n\n\n\n\n\n\n# replay --side server --plain\n\
# The same on the Ack that would have opened: its number is received, but opens nothing.\n\n# Request 1000\n9c401389050031ec01000000000003e80000002a\n\
# Ack 1005 of 2000, Mandatory Change L of no feature\n9c40138907001f1907000000000003ed00000000000007d001200200\n# Ack 1006 of 2001: there is no connection any more\n\
9c4013890600233b07000000000003ee00000000000007d1\n\n=> Done\n56: took\nsent s0 13899c400700261403000000000007d000000000000003e80000002a\n58: sent reset 6 32 0 0\n\
sent s1 13899c40070014180f000000000007d100000000000003ed06200000\n60: sent reset 3 0 0 0\nsent s2 13899c40070017360f000000000007d200000000000003ee03000000\n\
end server CLOSED window 4 flight 0 1=2/2 2=0/0 3=100/100 4=0/0 5=2/2 6=0/0 7=0/0 8=0/0 9=0/0\n~ replay,--side,server,--plain\n\
\n\n\n\n\n\n\n\n\n\n\n\n\n\n\n\n\n\n\n\n\n\n\n\n\n\n\n\n\n\n\n\n\n\n\n\n\n\n\n\n\n\n\n\n\n\n\n\n\n\n\n\n\n\n\n\n\n\n\n\n\n# replay --side server --plain\n# Request 1000\n\
9c401389050031ec01000000000003e80000002a\n# Ack 1001 of 2000, Mandatory NDP Count of 0 bytes: one of 1 to 6 is understood\n9c40138907001f1807000000000003e900000000000007d001250200\n\n=> Done\n\
64: took\nsent s0 13899c400700261403000000000007d000000000000003e80000002a\n66: sent reset 6 37 0 0\nsent s1 13899c40070014170f000000000007d100000000000003e906250000\n\
end server CLOSED window 4 flight 0 1=2/2 2=0/0 3=100/100 4=0/0 5=2/2 6=0/0 7=0/0 8=0/0 9=0/0\n~ replay,--side,server,--plain\n\
\n\n\n\n\n\n\n\n\n\n\n\n\n\n\n\n\n\n\n\n\n\n\n\n\n\n\n\n\n\n\n\n\n\n\n\n\n\n\n\n\n\n\n\n\n\n\n\n\n\n\n\n\n\n\n\n\n\n\n\n\n\n\n\n\n\n\n# replay --side server --plain\n# Request 1000\n\
9c401389050031ec01000000000003e80000002a\n# Ack 1001 of 2000, Mandatory NDP Count of 7 bytes\n9c4013890900f7e707000000000003e900000000000007d00125090708090a0b0c0d0000\n\n=> Done\n70: took\n\
sent s0 13899c400700261403000000000007d000000000000003e80000002a\n72: sent reset 6 37 7 8\nsent s1 13899c4007000d0f0f000000000007d100000000000003e906250708\n\
end server CLOSED window 4 flight 0 1=2/2 2=0/0 3=100/100 4=0/0 5=2/2 6=0/0 7=0/0 8=0/0 9=0/0\n~ replay,--side,server,--plain\n\
\n\n\n\n\n\n\n\n\n\n\n\n\n\n\n\n\n\n\n\n\n\n\n\n\n\n\n\n\n\n\n\n\n\n\n\n\n\n\n\n\n\n\n\n\n\n\n\n\n\n\n\n\n\n\n\n\n\n\n\n\n\n\n\n\n\n\n\n\n\n\n\n\n# replay --side server --plain\n# Request 1000\n\
9c401389050031ec01000000000003e80000002a\n# Ack 1001 of 2000, Mandatory Timestamp of 3 bytes: one of 4 is understood\n9c4013890800130007000000000003e900000000000007d00129050708090000\n\n=> Done\n\
76: took\nsent s0 13899c400700261403000000000007d000000000000003e80000002a\n78: sent reset 6 41 7 8\nsent s1 13899c4007000d0b0f000000000007d100000000000003e906290708\n\
end server CLOSED window 4 flight 0 1=2/2 2=0/0 3=100/100 4=0/0 5=2/2 6=0/0 7=0/0 8=0/0 9=0/0\n~ replay,--side,server,--plain\n\
\n\n\n\n\n\n\n\n\n\n\n\n\n\n\n\n\n\n\n\n\n\n\n\n\n\n\n\n\n\n\n\n\n\n\n\n\n\n\n\n\n\n\n\n\n\n\n\n\n\n\n\n\n\n\n\n\n\n\n\n\n\n\n\n\n\n\n\n\n\n\n\n\n\n\n\n\n\n\n# replay --side server --plain\n\
# Request 1000\n9c401389050031ec01000000000003e80000002a\n# Ack 1001 of 2000, Mandatory Timestamp of 5 bytes\n9c401389080006f507000000000003e900000000000007d00129070708090a0b\n\n=> Done\n82: took\n\
sent s0 13899c400700261403000000000007d000000000000003e80000002a\n84: sent reset 6 41 7 8\nsent s1 13899c4007000d0b0f000000000007d100000000000003e906290708\n\
end server CLOSED window 4 flight 0 1=2/2 2=0/0 3=100/100 4=0/0 5=2/2 6=0/0 7=0/0 8=0/0 9=0/0\n~ replay,--side,server,--plain\n\
\n\n\n\n\n\n\n\n\n\n\n\n\n\n\n\n\n\n\n\n\n\n\n\n\n\n\n\n\n\n\n\n\n\n\n\n\n\n\n\n\n\n\n\n\n\n\n\n\n\n\n\n\n\n\n\n\n\n\n\n\n\n\n\n\n\n\n\n\n\n\n\n\n\n\n\n\n\n\n\n\n\n\n\n\n\
# replay --side server --plain\n# Request 1000\n9c401389050031ec01000000000003e80000002a\n# Ack 1001 of 2000, Mandatory Timestamp Echo of 3 bytes: one of 4, 6 or 8 is understood\n\
9c401389080012ff07000000000003e900000000000007d0012a050708090000\n\n=> Done\n88: took\nsent s0 13899c400700261403000000000007d000000000000003e80000002a\n90: sent reset 6 42 7 8\n\
sent s1 13899c4007000d0a0f000000000007d100000000000003e9062a0708\nend server CLOSED window 4 flight 0 1=2/2 2=0/0 3=100/100 4=0/0 5=2/2 6=0/0 7=0/0 8=0/0 9=0/0\n~ replay,--side,server,--plain\n\
\n\n\n\n\n\n\n\n\n\n\n\n\n\n\n\n\n\n\n\n\n\n\n\n\n\n\n\n\n\n\n\n\n\n\n\n\n\n\n\n\n\n\n\n\n\n\n\n\n\n\n\n\n\n\n\n\n\n\n\n\n\n\n\n\n\n\n\n\n\n\n\n\n\n\n\n\n\n\n\n\n\n\n\n\n\n\n\n\n\n\n\
# replay --side server --plain\n# Request 1000\n9c401389050031ec01000000000003e80000002a\n# Ack 1001 of 2000, Mandatory Timestamp Echo of 5 bytes\n\
9c401389080006f407000000000003e900000000000007d0012a070708090a0b\n\n=> Done\n94: took\nsent s0 13899c400700261403000000000007d000000000000003e80000002a\n96: sent reset 6 42 7 8\n\
sent s1 13899c4007000d0a0f000000000007d100000000000003e9062a0708\nend server CLOSED window 4 flight 0 1=2/2 2=0/0 3=100/100 4=0/0 5=2/2 6=0/0 7=0/0 8=0/0 9=0/0\n~ replay,--side,server,--plain\n\
\n\n\n\n\n\n\n\n\n\n\n\n\n\n\n\n\n\n\n\n\n\n\n\n\n\n\n\n\n\n\n\n\n\n\n\n\n\n\n\n\n\n\n\n\n\n\n\n\n\n\n\n\n\n\n\n\n\n\n\n\n\n\n\n\n\n\n\n\n\n\n\n\n\n\n\n\n\n\n\n\n\n\n\n\n\n\n\n\n\n\n\n\n\n\n\n\n\
# replay --side server --plain\n# Request 1000\n9c401389050031ec01000000000003e80000002a\n# Ack 1001 of 2000, Mandatory Timestamp Echo of 7 bytes\n\
9c4013890900f7e207000000000003e900000000000007d0012a090708090a0b0c0d0000\n\n=> Done\n100: took\nsent s0 13899c400700261403000000000007d000000000000003e80000002a\n102: sent reset 6 42 7 8\n\
sent s1 13899c4007000d0a0f000000000007d100000000000003e9062a0708\nend server CLOSED window 4 flight 0 1=2/2 2=0/0 3=100/100 4=0/0 5=2/2 6=0/0 7=0/0 8=0/0 9=0/0\n~ replay,--side,server,--plain\n\
\n\n\n\n\n\n\n\n\n\n\n\n\n\n\n\n\n\n\n\n\n\n\n\n\n\n\n\n\n\n\n\n\n\n\n\n\n\n\n\n\n\n\n\n\n\n\n\n\n\n\n\n\n\n\n\n\n\n\n\n\n\n\n\n\n\n\n\n\n\n\n\n\n\n\n\n\n\n\n\n\
\n\n\n\n\n\n\n\n\n\n\n\n\n\n\n\n\n\n\n\n\n\n\n# replay --side server --plain\n# Request 1000\n9c401389050031ec01000000000003e80000002a\n# Ack 1001 of 2000, Mandatory Timestamp Echo of 9 bytes\n\
9c4013890900e7d307000000000003e900000000000007d0012a0b0708090a0b0c0d0e0f\n\n=> Done\n106: took\nsent s0 13899c400700261403000000000007d000000000000003e80000002a\n108: sent reset 6 42 7 8\n\
sent s1 13899c4007000d0a0f000000000007d100000000000003e9062a0708\nend server CLOSED window 4 flight 0 1=2/2 2=0/0 3=100/100 4=0/0 5=2/2 6=0/0 7=0/0 8=0/0 9=0/0\n~ replay,--side,server,--plain\n\
\n\n\n\n\n\n\n\n\n\n\n\n\n\n\n\n\n\n\n\n\n\n\n\n\n\n\n\n\n\n\n\n\n\n\n\n\n\n\n\n\n\n\n\n\n\n\n\n\n\n\n\n\n\n\n\n\n\n\n\n\n\n\n\n\n\n\n\n\n\n\n\n\n\n\n\n\n\n\n\n\
\n\n\n\n\n\n\n\n\n\n\n\n\n\n\n\n\n\n\n\n\n\n\n\n\n\n\n\n\n# replay --side server --plain\n# Request 1000\n9c401389050031ec01000000000003e80000002a\n\
# Ack 1001 of 2000, Mandatory Elapsed Time of 1 byte: one of 2 or 4 is understood\n9c40138907001e0b07000000000003e900000000000007d0012b0307\n\n=> Done\n112: took\n\
sent s0 13899c400700261403000000000007d000000000000003e80000002a\n114: sent reset 6 43 7 0\nsent s1 13899c4007000d110f000000000007d100000000000003e9062b0700\n\
end server CLOSED window 4 flight 0 1=2/2 2=0/0 3=100/100 4=0/0 5=2/2 6=0/0 7=0/0 8=0/0 9=0/0\n~ replay,--side,server,--plain\n\
\n\n\n\n\n\n\n\n\n\n\n\n\n\n\n\n\n\n\n\n\n\n\n\n\n\n\n\n\n\n\n\n\n\n\n\n\n\n\n\n\n\n\n\n\n\n\n\n\n\n\n\n\n\n\n\n\n\n\n\n\n\n\n\n\n\n\n\n\n\n\n\n\n\n\n\n\n\n\n\n\
\n\n\n\n\n\n\n\n\n\n\n\n\n\n\n\n\n\n\n\n\n\n\n\n\n\n\n\n\n\n\n\n\n\n\n# replay --side server --plain\n# Request 1000\n9c401389050031ec01000000000003e80000002a\n\
# Ack 1001 of 2000, Mandatory Elapsed Time of 3 bytes\n9c401389080012fe07000000000003e900000000000007d0012b050708090000\n\n=> Done\n118: took\n\
sent s0 13899c400700261403000000000007d000000000000003e80000002a\n120: sent reset 6 43 7 8\nsent s1 13899c4007000d090f000000000007d100000000000003e9062b0708\n\
end server CLOSED window 4 flight 0 1=2/2 2=0/0 3=100/100 4=0/0 5=2/2 6=0/0 7=0/0 8=0/0 9=0/0\n~ replay,--side,server,--plain\n\
\n\n\n\n\n\n\n\n\n\n\n\n\n\n\n\n\n\n\n\n\n\n\n\n\n\n\n\n\n\n\n\n\n\n\n\n\n\n\n\n\n\n\n\n\n\n\n\n\n\n\n\n\n\n\n\n\n\n\n\n\n\n\n\n\n\n\n\n\n\n\n\n\n\n\n\n\n\n\n\n\
\n\n\n\n\n\n\n\n\n\n\n\n\n\n\n\n\n\n\n\n\n\n\n\n\n\n\n\n\n\n\n\n\n\n\n\n\n\n\n\n\n# replay --side server --plain\n# Request 1000\n9c401389050031ec01000000000003e80000002a\n\
# Ack 1001 of 2000, Mandatory Elapsed Time of 5 bytes\n9c401389080006f307000000000003e900000000000007d0012b070708090a0b\n\n=> Done\n124: took\n\
sent s0 13899c400700261403000000000007d000000000000003e80000002a\n126: sent reset 6 43 7 8\nsent s1 13899c4007000d090f000000000007d100000000000003e9062b0708\n\
end server CLOSED window 4 flight 0 1=2/2 2=0/0 3=100/100 4=0/0 5=2/2 6=0/0 7=0/0 8=0/0 9=0/0\n~ replay,--side,server,--plain\n\
\n\n\n\n\n\n\n\n\n\n\n\n\n\n\n\n\n\n\n\n\n\n\n\n\n\n\n\n\n\n\n\n\n\n\n\n\n\n\n\n\n\n\n\n\n\n\n\n\n\n\n\n\n\n\n\n\n\n\n\n\n\n\n\n\n\n\n\n\n\n\n\n\n\n\n\n\n\n\n\n\
\n\n\n\n\n\n\n\n\n\n\n\n\n\n\n\n\n\n\n\n\n\n\n\n\n\n\n\n\n\n\n\n\n\n\n\n\n\n\n\n\n\n\n\n\n\n\n# replay --side server --plain\n# Request 1000\n9c401389050031ec01000000000003e80000002a\n\
# Ack 1001 of 2000, Mandatory Data Checksum of 3 bytes: one of 4 is understood\n9c401389080012fd07000000000003e900000000000007d0012c050708090000\n\n=> Done\n130: took\n\
sent s0 13899c400700261403000000000007d000000000000003e80000002a\n132: sent reset 6 44 7 8\nsent s1 13899c4007000d080f000000000007d100000000000003e9062c0708\n\
end server CLOSED window 4 flight 0 1=2/2 2=0/0 3=100/100 4=0/0 5=2/2 6=0/0 7=0/0 8=0/0 9=0/0\n~ replay,--side,server,--plain\n\
\n\n\n\n\n\n\n\n\n\n\n\n\n\n\n\n\n\n\n\n\n\n\n\n\n\n\n\n\n\n\n\n\n\n\n\n\n\n\n\n\n\n\n\n\n\n\n\n\n\n\n\n\n\n\n\n\n\n\n\n\n\n\n\n\n\n\n\n\n\n\n\n\n\n\n\n\n\n\n\n\
\n\n\n\n\n\n\n\n\n\n\n\n\n\n\n\n\n\n\n\n\n\n\n\n\n\n\n\n\n\n\n\n\n\n\n\n\n\n\n\n\n\n\n\n\n\n\n\n\n\n\n\n\n# replay --side server --plain\n# Request 1000\n9c401389050031ec01000000000003e80000002a\n\
# Ack 1001 of 2000, Mandatory Data Checksum of 5 bytes\n9c401389080006f207000000000003e900000000000007d0012c070708090a0b\n\n=> Done\n136: took\n\
sent s0 13899c400700261403000000000007d000000000000003e80000002a\n138: sent reset 6 44 7 8\nsent s1 13899c4007000d080f000000000007d100000000000003e9062c0708\n\
end server CLOSED window 4 flight 0 1=2/2 2=0/0 3=100/100 4=0/0 5=2/2 6=0/0 7=0/0 8=0/0 9=0/0\n~ replay,--side,server,--plain\n\
\n\n\n\n\n\n\n\n\n\n\n\n\n\n\n\n\n\n\n\n\n\n\n\n\n\n\n\n\n\n\n\n\n\n\n\n\n\n\n\n\n\n\n\n\n\n\n\n\n\n\n\n\n\n\n\n\n\n\n\n\n\n\n\n\n\n\n\n\n\n\n\n\n\n\n\n\n\n\n\n\
\n\n\n\n\n\n\n\n\n\n\n\n\n\n\n\n\n\n\n\n\n\n\n\n\n\n\n\n\n\n\n\n\n\n\n\n\n\n\n\n\n\n\n\n\n\n\n\n\n\n\n\n\n\n\n\n\n\n\n# replay --side server --plain\n\
# The first fault counts, also before Mandatory at the end.\n\n# Request 1000, Mandatory option 128 of 0 bytes, Mandatory Init Cookie of 0 bytes, Mandatory before Padding\n\
9c4013890800065d01000000000003e80000002a018002012402000001000000\n\n=> Done\n144: sent reset 6 128 0 0\nsent s0 13899c40070013be0f000000000007d000000000000003e806800000\n\
end server CLOSED window 4 flight 0 1=2/2 2=0/0 3=100/100 4=0/0 5=2/2 6=0/0 7=0/0 8=0/0 9=0/0\n~ replay,--side,server,--plain\n\
\n\n\n\n\n\n\n\n\n\n\n\n\n\n\n\n\n\n\n\n\n\n\n\n\n\n\n\n\n\n\n\n\n\n\n\n\n\n\n\n\n\n\n\n\n\n\n\n\n\n\n\n\n\n\n\n\n\n\n\n\n\n\n\n\n\n\n\n\n\n\n\n\n\n\n\n\n\n\n\n\
\n\n\n\n\n\n\n\n\n\n\n\n\n\n\n\n\n\n\n\n\n\n\n\n\n\n\n\n\n\n\n\n\n\n\n\n\n\n\n\n\n\n\n\n\n\n\n\n\n\n\n\n\n\n\n\n\n\n\n\n\n\n\n\n\n# replay --side server --plain\n\
# Faults on packets that are not the newest, and in CLOSING.\n\n# Request 1000\n9c401389050031ec01000000000003e80000002a\n# Ack 1001 of 2000\n9c4013890600234107000000000003e900000000000007d0\n\
# Ack 1007 of 2001\n9c4013890600233a07000000000003ef00000000000007d1\n# Ack 1003 of 2001, Mandatory Init Cookie of 1 byte: not understood, on an older packet too\n\
9c40138907001e0f07000000000003eb00000000000007d101240307\n\n=> Done\n150: took\nsent s0 13899c400700261403000000000007d000000000000003e80000002a\n152: took\n\
sent s1 13899c400600234007000000000007d100000000000003e9\n154: took\n156: sent reset 6 36 7 0\nsent s2 13899c4007000d110f000000000007d200000000000003ef06240700\n\
end server CLOSED window 4 flight 0 1=2/2 2=0/0 3=100/100 4=0/0 5=2/2 6=0/0 7=0/0 8=0/0 9=0/0\n~ replay,--side,client,--plain\n\
\n\n\n\n\n\n\n\n\n\n\n\n\n\n\n\n\n\n\n\n\n\n\n\n\n\n\n\n\n\n\n\n\n\n\n\n\n\n\n\n\n\n\n\n\n\n\n\n\n\n\n\n\n\n\n\n\n\n\n\n\n\n\n\n\n\n\n\n\n\n\n\n\n\n\n\n\n\n\n\n\
\n\n\n\n\n\n\n\n\n\n\n\n\n\n\n\n\n\n\n\n\n\n\n\n\n\n\n\n\n\n\n\n\n\n\n\n\n\n\n\n\n\n\n\n\n\n\n\n\n\n\n\n\n\n\n\n\n\n\n\n\n\n\n\n\n\n\n\n\n\n\n\n\n\n\n\n\n# replay --side client --plain\n\
# Response 2000 of 1000\n13899c400700261403000000000007d000000000000003e80000002a\n# Ack 2001 of 1000\n13899c400600234107000000000007d100000000000003e8\n# CloseReq 2002 of 1001\n\
13899c4006001f3f0b000000000007d200000000000003e9\n# Ack 2003 of 1001, Mandatory Change L 10 of 1: of the negotiation: ignored in CLOSING with its Mandatory\n\
13899c4008001b0c07000000000007d300000000000003e90120040a01000000\n# Ack 2004 of 1001, Mandatory Change L of no feature: it names no feature, so it is not understood\n\
13899c4007001f1907000000000007d400000000000003e901200200\n\n=> Done\nopen: ok\nsent c0 9c401389050031ec01000000000003e80000002a\n160: took\nsent c1 9c4013890600234107000000000003e900000000000007d0\n\
162: took\n164: took\nsent c2 9c40138906001d3e0d000000000003ea00000000000007d2\n166: took\n168: sent reset 6 32 0 0\nsent c3 9c401389070014170f000000000003eb00000000000007d406200000\n\
end client CLOSED window 4 flight 0 1=2/2 2=0/0 3=100/100 4=0/0 5=2/2 6=0/0 7=0/0 8=0/0 9=0/0\n~ replay,--side,client,--plain\n\
\n\n\n\n\n\n\n\n\n\n\n\n\n\n\n\n\n\n\n\n\n\n\n\n\n\n\n\n\n\n\n\n\n\n\n\n\n\n\n\n\n\n\n\n\n\n\n\n\n\n\n\n\n\n\n\n\n\n\n\n\n\n\n\n\n\n\n\n\n\n\n\n\n\n\n\n\n\n\n\n\
\n\n\n\n\n\n\n\n\n\n\n\n\n\n\n\n\n\n\n\n\n\n\n\n\n\n\n\n\n\n\n\n\n\n\n\n\n\n\n\n\n\n\n\n\n\n\n\n\n\n\n\n\n\n\n\n\n\n\n\n\n\n\n\n\n\n\n\n\n\n\n\n\n\n\n\n\n\n\n\n\n\n\n\n\n\n\n\n\n\
# replay --side client --plain\n# Mandatory is ignored on Data, and so is what it marks.\n\n# Response 2000 of 1000\n13899c400700261403000000000007d000000000000003e80000002a\n\
# Data 2001, Mandatory option 128 of 0 bytes, Mandatory Change L 1 of 9, Mandatory at the end\n13899c4007007a2905000000000007d1018002012004010900000001686921\n=> Done\nopen: ok\n\
sent c0 9c401389050031ec01000000000003e80000002a\n174: took\nsent c1 9c4013890600234107000000000003e900000000000007d0\n176: took data 686921\n\
end client OPEN window 4 flight 0 1=2/2 2=0/0 3=100/100 4=0/0 5=2/2 6=0/0 7=0/0 8=0/0 9=0/0\n~ replay,--side,server,--plain\n# replay --side server --plain\n\
# The checksum of the frame covers 8 bytes of data, and there are 7.\n9c4013890503000001000000000003e80000002a01020304050607\n=> Done\n3: dropped CoverageTooLarge\n\
end server LISTEN window 4 flight 0 1=2/2 2=0/0 3=100/100 4=0/0 5=2/2 6=0/0 7=0/0 8=0/0 9=0/0\n";

// All others.
const WHOLE: &str = "\
~ run\n=> Done\nend client CLOSED window 4 flight 0 1=2/2 2=0/0 3=100/100 4=0/0 5=2/2 6=0/0 7=0/0 8=0/0 9=0/0\n\
end server LISTEN window 4 flight 0 1=2/2 2=0/0 3=100/100 4=0/0 5=2/2 6=0/0 7=0/0 8=0/0 9=0/0\n~ run\n\n#\n\n# said\n\
################################################################################################################################################################################################################################################################################################################################################################################################################################################################################################################################################################################################################################################################################################################################################################################################################################################################################################################################################################################################################################################################################################################################################################################################################################################################################################################################################################################################################################################################################################################################################################################################################################################################################################################################################################################################################################################################################################################################################################################################################################################################################################################################################################################################################################################################################################################################################################################################################################################################################################################################################################################################################################################################################################################################################################################################################################################################################################################################################################################################################################################################################################################################################################################################################################################################################################################################################################################################################################################################################################################################################################################################################################################################################################################################################################################################################################################################################################################################################################################################################################################################################################################################################################################################################################################################=> Done\n\
end client CLOSED window 4 flight 0 1=2/2 2=0/0 3=100/100 4=0/0 5=2/2 6=0/0 7=0/0 8=0/0 9=0/0\nend server LISTEN window 4 flight 0 1=2/2 2=0/0 3=100/100 4=0/0 5=2/2 6=0/0 7=0/0 8=0/0 9=0/0\n~ run\n\
plain\nopen\ndeliver c1\n=> Input\n2 open: ok\nsent c0 9c401389050031ec01000000000003e80000002a\nline 3 column 9: NoSuchFrame\n~ run\nplain\nopen\ndeliver c0\ndeliver s0\ndeliver c1\n=> Done\n\
2 open: ok\nsent c0 9c401389050031ec01000000000003e80000002a\n3 deliver c0: took\nsent s0 13899c400700261403000000000007d000000000000003e80000002a\n4 deliver s0: took\n\
sent c1 9c4013890600234107000000000003e900000000000007d0\n5 deliver c1: took\nsent s1 13899c400600234007000000000007d100000000000003e9\n\
end client PARTOPEN window 4 flight 0 1=2/2 2=0/0 3=100/100 4=0/0 5=2/2 6=0/0 7=0/0 8=0/0 9=0/0\nend server OPEN window 4 flight 0 1=2/2 2=0/0 3=100/100 4=0/0 5=2/2 6=0/0 7=0/0 8=0/0 9=0/0\n~ run\n\
plain\nopen\ndeliver c0\ndeliver s0\ndeliver c1\ndeliver s1\n=> Done\n2 open: ok\nsent c0 9c401389050031ec01000000000003e80000002a\n3 deliver c0: took\n\
sent s0 13899c400700261403000000000007d000000000000003e80000002a\n4 deliver s0: took\nsent c1 9c4013890600234107000000000003e900000000000007d0\n5 deliver c1: took\n\
sent s1 13899c400600234007000000000007d100000000000003e9\n6 deliver s1: took\nend client OPEN window 4 flight 0 1=2/2 2=0/0 3=100/100 4=0/0 5=2/2 6=0/0 7=0/0 8=0/0 9=0/0\n\
end server OPEN window 4 flight 0 1=2/2 2=0/0 3=100/100 4=0/0 5=2/2 6=0/0 7=0/0 8=0/0 9=0/0\n~ run\nplain\niss client 281474976710654\nopen\ndeliver c0\ndeliver s0\ndeliver c1\ndeliver s1\n\
timer client ack\ndeliver c2\n=> Done\n3 open: ok\nsent c0 9c401389050035d50100fffffffffffe0000002a\n4 deliver c0: took\nsent s0 13899c40070029fd03000000000007d00000fffffffffffe0000002a\n\
5 deliver s0: took\nsent c1 9c4013890600272a0700ffffffffffff00000000000007d0\n6 deliver c1: took\nsent s1 13899c400600272907000000000007d10000ffffffffffff\n7 deliver s1: took\n\
8 timer client ack: fired\nsent c2 9c40138906002729070000000000000000000000000007d1\n9 deliver c2: took\nend client OPEN window 4 flight 0 1=2/2 2=0/0 3=100/100 4=0/0 5=2/2 6=0/0 7=0/0 8=0/0 9=0/0\n\
end server OPEN window 4 flight 0 1=2/2 2=0/0 3=100/100 4=0/0 5=2/2 6=0/0 7=0/0 8=0/0 9=0/0\n~ run\n# The server's first number is the greatest, and its next is 0. \nplain\n\
iss server 281474976710655\nopen\ndeliver c0\ndeliver s0\ndeliver c1\ndeliver s1\n=> Done\n4 open: ok\nsent c0 9c401389050031ec01000000000003e80000002a\n5 deliver c0: took\n\
sent s0 13899c4007002de40300ffffffffffff00000000000003e80000002a\n6 deliver s0: took\nsent c1 9c40138906002b1107000000000003e90000ffffffffffff\n7 deliver c1: took\n\
sent s1 13899c4006002b11070000000000000000000000000003e9\n8 deliver s1: took\nend client OPEN window 4 flight 0 1=2/2 2=0/0 3=100/100 4=0/0 5=2/2 6=0/0 7=0/0 8=0/0 9=0/0\n\
end server OPEN window 4 flight 0 1=2/2 2=0/0 3=100/100 4=0/0 5=2/2 6=0/0 7=0/0 8=0/0 9=0/0\n~ run\nplain\nopen\ntimer client request\ndeliver c1\ndeliver c0\n=> Done\n2 open: ok\n\
sent c0 9c401389050031ec01000000000003e80000002a\n3 timer client request: fired\nsent c1 9c401389050031eb01000000000003e90000002a\n4 deliver c1: took\n\
sent s0 13899c400700261303000000000007d000000000000003e90000002a\n5 deliver c0: synced 1000\nsent s1 13899c400600194111000000000007d100000000000003e8\n\
end client REQUEST window 4 flight 0 1=2/2 2=0/0 3=100/100 4=0/0 5=2/2 6=0/0 7=0/0 8=0/0 9=0/0\nend server RESPOND window 4 flight 0 1=2/2 2=0/0 3=100/100 4=0/0 5=2/2 6=0/0 7=0/0 8=0/0 9=0/0\n\
~ replay,--side,client,--plain\n# replay --side client --plain\n# Data comes before the answer to the Request.\nseal 13899c400400000005000000000007d0\n=> Done\nopen: ok\n\
sent c0 9c401389050031ec01000000000003e80000002a\n3: sent reset 4 2 0 0\nsent c1 9c4013890700163b0f000000000003e900000000000007d004020000\n\
end client REQUEST window 4 flight 0 1=2/2 2=0/0 3=100/100 4=0/0 5=2/2 6=0/0 7=0/0 8=0/0 9=0/0\n~ run\n\
# The client offers 2 before 248 for its CCID; the server's list has 248 first, and the server's order decides.\nplain\nset server there 1 248,2\noffer client here 1\nopen\ndeliver c0\ndeliver s0\n\
=> Done\n5 open: ok\nsent c0 9c401389070016dc01000000000003e80000002a20050102f8000000\n6 deliver c0: took\nsent s0 13899c400900070b03000000000007d000000000000003e80000002a230601f8f8020000\n\
7 deliver s0: took\nsent c1 9c4013890600234107000000000003e900000000000007d0\nend client PARTOPEN window 8 flight 0 1=248/2 2=0/0 3=100/100 4=0/0 5=2/2 6=0/0 7=0/0 8=0/0 9=0/0\n\
end server RESPOND window 4 flight 0 1=2/248 2=0/0 3=100/100 4=0/0 5=2/2 6=0/0 7=0/0 8=0/0 9=0/0\n~ run\n# The client must have Ack Vectors from the server, which accepts none: Mandatory Error.\n\
plain\nset server here 6 0\noffer client there 6 mandatory\nopen\ndeliver c0\ndeliver s0\n=> Done\n5 open: ok\nsent c0 9c401389070029bc01000000000003e80000002a0122040601000000\n\
6 deliver c0: sent reset 6 34 6 1\nsent s0 13899c4007000e1b0f000000000007d000000000000003e806220601\n7 deliver s0: was reset 6\n\
end client TIMEWAIT window 4 flight 0 1=2/2 2=0/0 3=100/100 4=0/0 5=2/2 6=0/0* 7=0/0 8=0/0 9=0/0\nend server CLOSED window 4 flight 0 1=2/2 2=0/0 3=100/100 4=0/0 5=2/2 6=0/0 7=0/0 8=0/0 9=0/0\n~ run\n\
# Both ends ask for feature 8 at once. The client takes the server's Confirm of 1 late, and holds 1 in STABLE while the server\n\
# holds 2 in CHANGING. The server asks again, since its own Change was never confirmed, and both hold 2.\nplain\nset server there 8 1,2\nopen\ndeliver c0\ndeliver s0\ndeliver c1\ndeliver s1\n\
prefer client here 8 1,2\ndeliver c2\nprefer server there 8 2,1\ntimer client negotiate\ndeliver c3\ndeliver s2\ntimer server negotiate\ndeliver s5\ndeliver c4\n=> Done\n5 open: ok\n\
sent c0 9c401389050031ec01000000000003e80000002a\n6 deliver c0: took\nsent s0 13899c400700261403000000000007d000000000000003e80000002a\n7 deliver s0: took\n\
sent c1 9c4013890600234107000000000003e900000000000007d0\n8 deliver c1: took\nsent s1 13899c400600234007000000000007d100000000000003e9\n9 deliver s1: took\n10 prefer client here 8 1,2: ok\n\
sent c2 9c4013890800f73007000000000003ea00000000000007d12005080102000000\n11 deliver c2: took\nsent s2 13899c400800f52c07000000000007d200000000000003ea2306080101020000\n\
12 prefer server there 8 2,1: ok\nsent s3 13899c400800f62d07000000000007d300000000000003ea2205080201000000\n13 timer client negotiate: fired\n\
sent c3 9c4013890800f72f07000000000003eb00000000000007d12005080102000000\n14 deliver c3: took\nsent s4 13899c400800f42907000000000007d400000000000003eb2306080202010000\n15 deliver s2: took\n\
16 timer server negotiate: fired\nsent s5 13899c400800f62a07000000000007d500000000000003eb2205080201000000\n17 deliver s5: took\n\
sent c4 9c4013890800f72607000000000003ec00000000000007d52106080201020000\n18 deliver c4: took\nend client OPEN window 4 flight 0 1=2/2 2=0/0 3=100/100 4=0/0 5=2/2 6=0/0 7=0/0 8=2/0 9=0/0\n\
end server OPEN window 4 flight 0 1=2/2 2=0/0 3=100/100 4=0/0 5=2/2 6=0/0 7=0/0 8=0/2 9=0/0\n~ run\n\
# Both ends ask for feature 8 at once, and the schedule ends where the client has just taken the server's late Confirm: it holds 1 in\n# STABLE, while the server holds 2 in CHANGING.\nplain\n\
set server there 8 1,2\nopen\ndeliver c0\ndeliver s0\ndeliver c1\ndeliver s1\nprefer client here 8 1,2\ndeliver c2\nprefer server there 8 2,1\ntimer client negotiate\ndeliver c3\ndeliver s2\n=> Done\n\
5 open: ok\nsent c0 9c401389050031ec01000000000003e80000002a\n6 deliver c0: took\nsent s0 13899c400700261403000000000007d000000000000003e80000002a\n7 deliver s0: took\n\
sent c1 9c4013890600234107000000000003e900000000000007d0\n8 deliver c1: took\nsent s1 13899c400600234007000000000007d100000000000003e9\n9 deliver s1: took\n10 prefer client here 8 1,2: ok\n\
sent c2 9c4013890800f73007000000000003ea00000000000007d12005080102000000\n11 deliver c2: took\nsent s2 13899c400800f52c07000000000007d200000000000003ea2306080101020000\n\
12 prefer server there 8 2,1: ok\nsent s3 13899c400800f62d07000000000007d300000000000003ea2205080201000000\n13 timer client negotiate: fired\n\
sent c3 9c4013890800f72f07000000000003eb00000000000007d12005080102000000\n14 deliver c3: took\nsent s4 13899c400800f42907000000000007d400000000000003eb2306080202010000\n15 deliver s2: took\n\
end client OPEN window 4 flight 0 1=2/2 2=0/0 3=100/100 4=0/0 5=2/2 6=0/0 7=0/0 8=1/0 9=0/0\nend server OPEN window 4 flight 0 1=2/2 2=0/0 3=100/100 4=0/0 5=2/2 6=0/0 7=0/0 8=0/2* 9=0/0\n~ run\n\
# The client changes its mind twice while its Change is under way. Its last Change arrives first, and the older ones count no more.\nplain\nset server there 8 1,2\nopen\ndeliver c0\ndeliver s0\n\
deliver c1\ndeliver s1\nprefer client here 8 1,2\nprefer client here 8 2,1\ntimer client negotiate\nprefer client here 8 2\ntimer client negotiate\ndeliver c4\ndeliver c2\ndeliver c3\ndeliver s2\n\
=> Done\n4 open: ok\nsent c0 9c401389050031ec01000000000003e80000002a\n5 deliver c0: took\nsent s0 13899c400700261403000000000007d000000000000003e80000002a\n6 deliver s0: took\n\
sent c1 9c4013890600234107000000000003e900000000000007d0\n7 deliver c1: took\nsent s1 13899c400600234007000000000007d100000000000003e9\n8 deliver s1: took\n9 prefer client here 8 1,2: ok\n\
sent c2 9c4013890800f73007000000000003ea00000000000007d12005080102000000\n10 prefer client here 8 2,1: ok\n11 timer client negotiate: fired\n\
sent c3 9c4013890800f82e07000000000003eb00000000000007d12005080201000000\n12 prefer client here 8 2: ok\n13 timer client negotiate: fired\n\
sent c4 9c4013890700fa3207000000000003ec00000000000007d120040802\n14 deliver c4: took\nsent s2 13899c400800f52907000000000007d200000000000003ec2306080201020000\n15 deliver c2: took\n\
16 deliver c3: took\n17 deliver s2: took\nend client OPEN window 4 flight 0 1=2/2 2=0/0 3=100/100 4=0/0 5=2/2 6=0/0 7=0/0 8=2/0 9=0/0\n\
end server OPEN window 4 flight 0 1=2/2 2=0/0 3=100/100 4=0/0 5=2/2 6=0/0 7=0/0 8=0/2 9=0/0\n~ run\n\
# The Confirm of an older list comes after a newer Change was sent: it acknowledges a number before that Change, and is ignored.\nplain\nset server there 8 1,2\nopen\ndeliver c0\ndeliver s0\n\
deliver c1\ndeliver s1\nprefer client here 8 1,2\ndeliver c2\nprefer client here 8 2,1\ntimer client negotiate\nprefer client here 8 2\ntimer client negotiate\ndeliver s2\n=> Done\n4 open: ok\n\
sent c0 9c401389050031ec01000000000003e80000002a\n5 deliver c0: took\nsent s0 13899c400700261403000000000007d000000000000003e80000002a\n6 deliver s0: took\n\
sent c1 9c4013890600234107000000000003e900000000000007d0\n7 deliver c1: took\nsent s1 13899c400600234007000000000007d100000000000003e9\n8 deliver s1: took\n9 prefer client here 8 1,2: ok\n\
sent c2 9c4013890800f73007000000000003ea00000000000007d12005080102000000\n10 deliver c2: took\nsent s2 13899c400800f52c07000000000007d200000000000003ea2306080101020000\n\
11 prefer client here 8 2,1: ok\n12 timer client negotiate: fired\nsent c3 9c4013890800f82e07000000000003eb00000000000007d12005080201000000\n13 prefer client here 8 2: ok\n\
14 timer client negotiate: fired\nsent c4 9c4013890700fa3207000000000003ec00000000000007d120040802\n15 deliver s2: took\n\
end client OPEN window 4 flight 0 1=2/2 2=0/0 3=100/100 4=0/0 5=2/2 6=0/0 7=0/0 8=0*/0 9=0/0\nend server OPEN window 4 flight 0 1=2/2 2=0/0 3=100/100 4=0/0 5=2/2 6=0/0 7=0/0 8=0/1 9=0/0\n~ run\n\
# In the end the lists share no value. The client's Confirm names what it holds, 0, but the server holds 1: Option Error.\nplain\nset server there 8 1,2\nopen\ndeliver c0\ndeliver s0\ndeliver c1\n\
deliver s1\nprefer client here 8 1,2\ndeliver c2\nprefer server there 8 3\ndeliver s3\ndeliver c3\ndeliver s4\n=> Done\n4 open: ok\nsent c0 9c401389050031ec01000000000003e80000002a\n\
5 deliver c0: took\nsent s0 13899c400700261403000000000007d000000000000003e80000002a\n6 deliver s0: took\nsent c1 9c4013890600234107000000000003e900000000000007d0\n7 deliver c1: took\n\
sent s1 13899c400600234007000000000007d100000000000003e9\n8 deliver s1: took\n9 prefer client here 8 1,2: ok\nsent c2 9c4013890800f73007000000000003ea00000000000007d12005080102000000\n\
10 deliver c2: took\nsent s2 13899c400800f52c07000000000007d200000000000003ea2306080101020000\n11 prefer server there 8 3: ok\nsent s3 13899c400700f83107000000000007d300000000000003ea22040803\n\
12 deliver s3: took\nsent c3 9c4013890800f72b07000000000003eb00000000000007d32106080001020000\n13 deliver c3: sent reset 5 33 8 0\nsent s4 13899c4007000d160f000000000007d400000000000003eb05210800\n\
14 deliver s4: was reset 5\nend client TIMEWAIT window 4 flight 0 1=2/2 2=0/0 3=100/100 4=0/0 5=2/2 6=0/0 7=0/0 8=0*/0 9=0/0\n\
end server CLOSED window 4 flight 0 1=2/2 2=0/0 3=100/100 4=0/0 5=2/2 6=0/0 7=0/0 8=0/1* 9=0/0\n~ replay,--side,server,--plain\n# replay --side server --plain\n\
# The client asks for the Sequence Window 31, which is not permitted: an empty Confirm answers.\nseal 9c4013890800000001000000000003e80000002a20090300000000001f000000\n\n=> Done\n3: took\n\
sent s0 13899c400800ff0c03000000000007d000000000000003e80000002a23030300\nend server RESPOND window 4 flight 0 1=2/2 2=0/0 3=100/100 4=0/0 5=2/2 6=0/0 7=0/0 8=0/0 9=0/0\n\
~ replay,--side,server,--plain\n\n\n\n\n# replay --side server --plain\n# The Sequence Window 32, the least that is permitted.\nseal 9c4013890800000001000000000003e80000002a200903000000000020000000\n\
\n=> Done\n7: took\nsent s0 13899c400a00dcfe03000000000007d000000000000003e80000002a230903000000000020000000\n\
end server RESPOND window 4 flight 0 1=2/2 2=0/0 3=100/32 4=0/0 5=2/2 6=0/0 7=0/0 8=0/0 9=0/0\n~ replay,--side,server,--plain\n\n\n\n\n\n\n\n\n# replay --side server --plain\n\
# The Sequence Window 2^46 - 1, the greatest.\nseal 9c4013890800000001000000000003e80000002a2009033fffffffffff000000\n=> Done\n11: took\n\
sent s0 13899c400a00fdbe03000000000007d000000000000003e80000002a2309033fffffffffff000000\nend server RESPOND window 4 flight 0 1=2/2 2=0/0 3=100/70368744177663 4=0/0 5=2/2 6=0/0 7=0/0 8=0/0 9=0/0\n\
~ replay,--side,server,--plain\n# replay --side server --plain\n# The client asks for Ack Vectors, and for one Ack for every two data packets. It begins at 88; its number 99 is lost.\n\
# The Request 88, and the Ack 89.\nseal 9c4013890800000001000000000000580000002a220406012005050002000000\nseal 9c40138906000000070000000000005900000000000007d0\n\
# The Data 90 to 98, and 100, whose Ack has the vector 00 c0 0a: 100 received, 99 not, 98 to 88 received.\nseal 9c40138904000000050000000000005a5a\nseal 9c40138904000000050000000000005b5b\n\
seal 9c40138904000000050000000000005c5c\nseal 9c40138904000000050000000000005d5d\nseal 9c40138904000000050000000000005e5e\nseal 9c40138904000000050000000000005f5f\n\
seal 9c40138904000000050000000000006060\nseal 9c40138904000000050000000000006161\nseal 9c40138904000000050000000000006262\nseal 9c40138904000000050000000000006464\n=> Done\n4: took\n\
sent s0 13899c400a00d48b03000000000007d000000000000000580000002a210606010100230505000200\n5: took\nsent s1 13899c400700fec807000000000007d1000000000000005926030100\n7: took data 5a\n8: took data 5b\n\
sent s2 13899c400700fcc507000000000007d2000000000000005b26030300\n9: took data 5c\n10: took data 5d\nsent s3 13899c400700fac207000000000007d3000000000000005d26030500\n11: took data 5e\n\
12: took data 5f\nsent s4 13899c400700f8bf07000000000007d4000000000000005f26030700\n13: took data 60\n14: took data 61\nsent s5 13899c400700f6bc07000000000007d5000000000000006126030900\n\
15: took data 62\n16: took data 64\nsent s6 13899c400800f3f207000000000007d60000000000000064260500c00a000000\n\
end server OPEN window 4 flight 0 1=2/2 2=0/0 3=100/100 4=0/0 5=2/2 6=1/0 7=0/0 8=0/0 9=0/0\n~ replay,--side,server,--plain\n# replay --side server --plain\n\
# The client asks for Ack Vectors, and for an Ack for each data packet. It begins at 1.\n# The Request 1, and the Ack 2.\nseal 9c4013890800000001000000000000010000002a220406012005050001000000\n\
seal 9c40138906000000070000000000000200000000000007d0\n# The Data 3 to 65. The Ack of 64 has the vector 3f, a run of 64 numbers; that of 65 has 3f 00.\nseal 9c401389040000000500000000000003\n\
seal 9c401389040000000500000000000004\nseal 9c401389040000000500000000000005\nseal 9c401389040000000500000000000006\nseal 9c401389040000000500000000000007\nseal 9c401389040000000500000000000008\n\
seal 9c401389040000000500000000000009\nseal 9c40138904000000050000000000000a\nseal 9c40138904000000050000000000000b\nseal 9c40138904000000050000000000000c\nseal 9c40138904000000050000000000000d\n\
seal 9c40138904000000050000000000000e\nseal 9c40138904000000050000000000000f\nseal 9c401389040000000500000000000010\nseal 9c401389040000000500000000000011\nseal 9c401389040000000500000000000012\n\
seal 9c401389040000000500000000000013\nseal 9c401389040000000500000000000014\nseal 9c401389040000000500000000000015\nseal 9c401389040000000500000000000016\nseal 9c401389040000000500000000000017\n\
seal 9c401389040000000500000000000018\nseal 9c401389040000000500000000000019\nseal 9c40138904000000050000000000001a\nseal 9c40138904000000050000000000001b\nseal 9c40138904000000050000000000001c\n\
seal 9c40138904000000050000000000001d\nseal 9c40138904000000050000000000001e\nseal 9c40138904000000050000000000001f\nseal 9c401389040000000500000000000020\nseal 9c401389040000000500000000000021\n\
seal 9c401389040000000500000000000022\nseal 9c401389040000000500000000000023\nseal 9c401389040000000500000000000024\nseal 9c401389040000000500000000000025\nseal 9c401389040000000500000000000026\n\
seal 9c401389040000000500000000000027\nseal 9c401389040000000500000000000028\nseal 9c401389040000000500000000000029\nseal 9c40138904000000050000000000002a\nseal 9c40138904000000050000000000002b\n\
seal 9c40138904000000050000000000002c\nseal 9c40138904000000050000000000002d\nseal 9c40138904000000050000000000002e\nseal 9c40138904000000050000000000002f\nseal 9c401389040000000500000000000030\n\
seal 9c401389040000000500000000000031\nseal 9c401389040000000500000000000032\nseal 9c401389040000000500000000000033\nseal 9c401389040000000500000000000034\nseal 9c401389040000000500000000000035\n\
seal 9c401389040000000500000000000036\nseal 9c401389040000000500000000000037\nseal 9c401389040000000500000000000038\nseal 9c401389040000000500000000000039\nseal 9c40138904000000050000000000003a\n\
seal 9c40138904000000050000000000003b\nseal 9c40138904000000050000000000003c\nseal 9c40138904000000050000000000003d\nseal 9c40138904000000050000000000003e\nseal 9c40138904000000050000000000003f\n\
seal 9c401389040000000500000000000040\nseal 9c401389040000000500000000000041\n=> Done\n4: took\nsent s0 13899c400a00d5e203000000000007d000000000000000010000002a210606010100230505000100\n5: took\n\
sent s1 13899c400700ff1f07000000000007d1000000000000000226030100\n7: took data -\nsent s2 13899c400700fe1d07000000000007d2000000000000000326030200\n8: took data -\n\
sent s3 13899c400700fd1b07000000000007d3000000000000000426030300\n9: took data -\nsent s4 13899c400700fc1907000000000007d4000000000000000526030400\n10: took data -\n\
sent s5 13899c400700fb1707000000000007d5000000000000000626030500\n11: took data -\nsent s6 13899c400700fa1507000000000007d6000000000000000726030600\n12: took data -\n\
sent s7 13899c400700f91307000000000007d7000000000000000826030700\n13: took data -\nsent s8 13899c400700f81107000000000007d8000000000000000926030800\n14: took data -\n\
sent s9 13899c400700f70f07000000000007d9000000000000000a26030900\n15: took data -\nsent s10 13899c400700f60d07000000000007da000000000000000b26030a00\n16: took data -\n\
sent s11 13899c400700f50b07000000000007db000000000000000c26030b00\n17: took data -\nsent s12 13899c400700f40907000000000007dc000000000000000d26030c00\n18: took data -\n\
sent s13 13899c400700f30707000000000007dd000000000000000e26030d00\n19: took data -\nsent s14 13899c400700f20507000000000007de000000000000000f26030e00\n20: took data -\n\
sent s15 13899c400700f10307000000000007df000000000000001026030f00\n21: took data -\nsent s16 13899c400700f00107000000000007e0000000000000001126031000\n22: took data -\n\
sent s17 13899c400700eeff07000000000007e1000000000000001226031100\n23: took data -\nsent s18 13899c400700edfd07000000000007e2000000000000001326031200\n24: took data -\n\
sent s19 13899c400700ecfb07000000000007e3000000000000001426031300\n25: took data -\nsent s20 13899c400700ebf907000000000007e4000000000000001526031400\n26: took data -\n\
sent s21 13899c400700eaf707000000000007e5000000000000001626031500\n27: took data -\nsent s22 13899c400700e9f507000000000007e6000000000000001726031600\n28: took data -\n\
sent s23 13899c400700e8f307000000000007e7000000000000001826031700\n29: took data -\nsent s24 13899c400700e7f107000000000007e8000000000000001926031800\n30: took data -\n\
sent s25 13899c400700e6ef07000000000007e9000000000000001a26031900\n31: took data -\nsent s26 13899c400700e5ed07000000000007ea000000000000001b26031a00\n32: took data -\n\
sent s27 13899c400700e4eb07000000000007eb000000000000001c26031b00\n33: took data -\nsent s28 13899c400700e3e907000000000007ec000000000000001d26031c00\n34: took data -\n\
sent s29 13899c400700e2e707000000000007ed000000000000001e26031d00\n35: took data -\nsent s30 13899c400700e1e507000000000007ee000000000000001f26031e00\n36: took data -\n\
sent s31 13899c400700e0e307000000000007ef000000000000002026031f00\n37: took data -\nsent s32 13899c400700dfe107000000000007f0000000000000002126032000\n38: took data -\n\
sent s33 13899c400700dedf07000000000007f1000000000000002226032100\n39: took data -\nsent s34 13899c400700dddd07000000000007f2000000000000002326032200\n40: took data -\n\
sent s35 13899c400700dcdb07000000000007f3000000000000002426032300\n41: took data -\nsent s36 13899c400700dbd907000000000007f4000000000000002526032400\n42: took data -\n\
sent s37 13899c400700dad707000000000007f5000000000000002626032500\n43: took data -\nsent s38 13899c400700d9d507000000000007f6000000000000002726032600\n44: took data -\n\
sent s39 13899c400700d8d307000000000007f7000000000000002826032700\n45: took data -\nsent s40 13899c400700d7d107000000000007f8000000000000002926032800\n46: took data -\n\
sent s41 13899c400700d6cf07000000000007f9000000000000002a26032900\n47: took data -\nsent s42 13899c400700d5cd07000000000007fa000000000000002b26032a00\n48: took data -\n\
sent s43 13899c400700d4cb07000000000007fb000000000000002c26032b00\n49: took data -\nsent s44 13899c400700d3c907000000000007fc000000000000002d26032c00\n50: took data -\n\
sent s45 13899c400700d2c707000000000007fd000000000000002e26032d00\n51: took data -\nsent s46 13899c400700d1c507000000000007fe000000000000002f26032e00\n52: took data -\n\
sent s47 13899c400700d0c307000000000007ff000000000000003026032f00\n53: took data -\nsent s48 13899c400700cfc10700000000000800000000000000003126033000\n54: took data -\n\
sent s49 13899c400700cebf0700000000000801000000000000003226033100\n55: took data -\nsent s50 13899c400700cdbd0700000000000802000000000000003326033200\n56: took data -\n\
sent s51 13899c400700ccbb0700000000000803000000000000003426033300\n57: took data -\nsent s52 13899c400700cbb90700000000000804000000000000003526033400\n58: took data -\n\
sent s53 13899c400700cab70700000000000805000000000000003626033500\n59: took data -\nsent s54 13899c400700c9b50700000000000806000000000000003726033600\n60: took data -\n\
sent s55 13899c400700c8b30700000000000807000000000000003826033700\n61: took data -\nsent s56 13899c400700c7b10700000000000808000000000000003926033800\n62: took data -\n\
sent s57 13899c400700c6af0700000000000809000000000000003a26033900\n63: took data -\nsent s58 13899c400700c5ad070000000000080a000000000000003b26033a00\n64: took data -\n\
sent s59 13899c400700c4ab070000000000080b000000000000003c26033b00\n65: took data -\nsent s60 13899c400700c3a9070000000000080c000000000000003d26033c00\n66: took data -\n\
sent s61 13899c400700c2a7070000000000080d000000000000003e26033d00\n67: took data -\nsent s62 13899c400700c1a5070000000000080e000000000000003f26033e00\n68: took data -\n\
sent s63 13899c400700c0a3070000000000080f000000000000004026033f00\n69: took data -\nsent s64 13899c400700c0a00700000000000810000000000000004126043f00\n\
end server OPEN window 4 flight 0 1=2/2 2=0/0 3=100/100 4=0/0 5=2/1 6=1/0 7=0/0 8=0/0 9=0/0\n~ replay,--side,server,--plain\n# replay --side server --plain\n\
# The client asks for Ack Vectors, and for an Ack for each data packet. It begins at 10; its number 12 is late.\n# The Request 10, and the Ack 11.\n\
seal 9c40138908000000010000000000000a0000002a220406012005050001000000\nseal 9c40138906000000070000000000000b00000000000007d0\n# The Data 13: its Ack 2002 has the vector 00 c0 01.\n\
seal 9c40138904000000050000000000000d0d\n# The Data 13 once more is not delivered again.\nseal 9c40138904000000050000000000000d0d\n\
# The Ack 11 once more: it acknowledges the Response 2000, which has no record.\nseal 9c40138906000000070000000000000b00000000000007d0\n\
# And now it acknowledges 2002, of which there is a record up to 13: the floor is 14.\nseal 9c40138906000000070000000000000b00000000000007d2\n\
# The Data 12 is below the floor: it is taken, and its data is not delivered.\nseal 9c40138904000000050000000000000c0c\n# The Data 15: its Ack has the vector 00 c0.\n\
seal 9c40138904000000050000000000000f0f\n=> Done\n4: took\nsent s0 13899c400a00d5d903000000000007d0000000000000000a0000002a210606010100230505000100\n5: took\n\
sent s1 13899c400700ff1607000000000007d1000000000000000b26030100\n7: took data 0d\nsent s2 13899c400800fd4d07000000000007d2000000000000000d260500c001000000\n9: took\n11: took\n13: took\n15: took\n\
17: took data 0f\nsent s3 13899c400700ff4f07000000000007d3000000000000000f260400c0\nend server OPEN window 4 flight 0 1=2/2 2=0/0 3=100/100 4=0/0 5=2/1 6=1/0 7=0/0 8=0/0 9=0/0\n~ run\n\
# CCID 2 step by step. A send that is refused with WindowFull shows that as many packets are in flight as the window has.\n# The first four packets fill the window of 4.\nopen\ndeliver c0\n\
deliver s0\ndeliver c1\ndeliver s1\nsend client 01\nsend client 02\nsend client 03\nsend client 04\nsend client ff\n# One report of all four: the window is 5, and nothing is in flight.\ndeliver c2\n\
deliver c3\ndeliver c4\ndeliver c5\ndeliver s3\nsend client 05\nsend client 06\nsend client 07\nsend client 08\nsend client 09\nsend client ff\n\
# 6, 7 and 8 are reported: 5 is lost, the window is 2, and 9 is in flight.\ndeliver c7\ndeliver c8\ndeliver c9\ntimer server ack\ndeliver s5\n\
# 10 is reported, 11 opens the window to 3, and 12 takes 9 for lost. 9 was sent before the window was halved, so it does not fall again.\nsend client 0a\nsend client ff\ndeliver c11\n\
timer server ack\ndeliver s6\nsend client 0b\ndeliver c12\ntimer server ack\ndeliver s7\nsend client 0c\ndeliver c13\ntimer server ack\ndeliver s8\n=> Done\n3 open: ok\n\
sent c0 9c401389080000b601000000000003e80000002a012004040101220406010000\n4 deliver c0: took\n\
sent s0 13899c400d00a1c303000000000007d000000000000003e80000002a230604010100210606010100012004040101220406010000\n5 deliver s0: took\n\
sent c1 9c4013890a00eadd07000000000003e900000000000007d026030023060401010021060601010000\n6 deliver c1: took\nsent s1 13899c400700fb3807000000000007d100000000000003e926030100\n7 deliver s1: took\n\
8 send client 01: ok\nsent c2 9c4013890700f93609000000000003ea00000000000007d12603000001\n9 send client 02: ok\nsent c3 9c40138904002d1605000000000003eb02\n10 send client 03: ok\n\
sent c4 9c40138904002c1505000000000003ec03\n11 send client 04: ok\nsent c5 9c40138904002b1405000000000003ed04\n12 send client ff: refused WindowFull\n14 deliver c2: took data 01\n\
15 deliver c3: took data 02\nsent s2 13899c400700fb3507000000000007d200000000000003eb26030100\n16 deliver c4: took data 03\n17 deliver c5: took data 04\n\
sent s3 13899c400700f93207000000000007d300000000000003ed26030300\n18 deliver s3: took\n19 send client 05: ok\nsent c6 9c4013890800f36a09000000000003ee00000000000007d3260500c00000000005\n\
20 send client 06: ok\nsent c7 9c4013890400291205000000000003ef06\n21 send client 07: ok\nsent c8 9c4013890400281105000000000003f007\n22 send client 08: ok\n\
sent c9 9c4013890400271005000000000003f108\n23 send client 09: ok\nsent c10 9c4013890400260f05000000000003f209\n24 send client ff: refused WindowFull\n26 deliver c7: took data 06\n\
27 deliver c8: took data 07\nsent s4 13899c400800f66807000000000007d400000000000003f0260501c003000000\n28 deliver c9: took data 08\n29 timer server ack: fired\n\
sent s5 13899c400800f56607000000000007d500000000000003f1260502c003000000\n30 deliver s5: took\n32 send client 0a: ok\nsent c11 9c4013890800eda109000000000003f300000000000007d5260700c000c000000a\n\
33 send client ff: refused WindowFull\n34 deliver c11: took data 0a\n35 timer server ack: fired\nsent s6 13899c400700fb6807000000000007d600000000000003f3260400c0\n36 deliver s6: took\n\
37 send client 0b: ok\nsent c12 9c4013890700ef2709000000000003f400000000000007d6260300000b\n38 deliver c12: took data 0b\n39 timer server ack: fired\n\
sent s7 13899c400700fc2707000000000007d700000000000003f426030000\n40 deliver s7: took\n41 send client 0c: ok\nsent c13 9c4013890700ee2509000000000003f500000000000007d7260300000c\n\
42 deliver c13: took data 0c\n43 timer server ack: fired\nsent s8 13899c400700fc2507000000000007d800000000000003f526030000\n44 deliver s8: took\n\
end client OPEN window 3 flight 0 1=2/2 2=0/0 3=100/100 4=1/1 5=2/2 6=1/1 7=0/0 8=0/0 9=0/0\nend server OPEN window 4 flight 0 1=2/2 2=0/0 3=100/100 4=1/1 5=2/2 6=1/1 7=0/0 8=0/0 9=0/0\n~ run\nplain\n\
open\ndeliver c0\ndeliver s0\ndeliver c1\ndeliver s1\nsend client aa\nprefer client there 3 200\nprefer client here 1 3\ntimer client rto\nopen\nclose client\ndeliver c2\ndeliver s2\n\
timer client timewait\nabort client\nclose server\n=> Done\n2 open: ok\nsent c0 9c401389050031ec01000000000003e80000002a\n3 deliver c0: took\n\
sent s0 13899c400700261403000000000007d000000000000003e80000002a\n4 deliver s0: took\nsent c1 9c4013890600234107000000000003e900000000000007d0\n5 deliver c1: took\n\
sent s1 13899c400600234007000000000007d100000000000003e9\n6 deliver s1: took\n7 send client aa: refused NotNegotiated\n8 prefer client there 3 200: refused NotOurs\n\
9 prefer client here 1 3: refused BadList\n10 timer client rto: idle\n11 open: refused NotFresh\n12 close client: ok\nsent c2 9c40138906001d3f0d000000000003ea00000000000007d1\n\
13 deliver c2: sent reset 1 0 0 0\nsent s2 13899c400700193a0f000000000007d200000000000003ea01000000\n14 deliver s2: was reset 1\n15 timer client timewait: fired\n16 abort client: refused NotLive\n\
17 close server: refused NotOpen\nend client CLOSED window 4 flight 0 1=2/2 2=0/0 3=100/100 4=0/0 5=2/2 6=0/0 7=0/0 8=0/0 9=0/0\n\
end server CLOSED window 4 flight 0 1=2/2 2=0/0 3=100/100 4=0/0 5=2/2 6=0/0 7=0/0 8=0/0 9=0/0\n~ run\nplain\nopen\ndeliver c0\ndeliver c0\ndeliver s1\ndeliver s0\ndeliver c2\ndeliver s2\n=> Done\n\
2 open: ok\nsent c0 9c401389050031ec01000000000003e80000002a\n3 deliver c0: took\nsent s0 13899c400700261403000000000007d000000000000003e80000002a\n4 deliver c0: took\n\
sent s1 13899c400700261303000000000007d100000000000003e80000002a\n5 deliver s1: took\nsent c1 9c4013890600234007000000000003e900000000000007d1\n6 deliver s0: synced 2000\n\
sent c2 9c4013890600194011000000000003ea00000000000007d0\n7 deliver c2: took\nsent s2 13899c400600173e13000000000007d200000000000003ea\n8 deliver s2: took\n\
end client OPEN window 4 flight 0 1=2/2 2=0/0 3=100/100 4=0/0 5=2/2 6=0/0 7=0/0 8=0/0 9=0/0\nend server OPEN window 4 flight 0 1=2/2 2=0/0 3=100/100 4=0/0 5=2/2 6=0/0 7=0/0 8=0/0 9=0/0\n\
~ replay,--side,server,--plain\n# replay --side server --plain\n# A vector has at most 253 bytes. The client asks for Ack Vectors and for no Acks; each Change that it repeats brings one.\n\
# The Request 1000, and the Ack 1001.\nseal 9c4013890800000001000000000003e80000002a220406012005050000000000\nseal 9c4013890600000007000000000003e900000000000007d0\n\
# Every second Data is lost: 1003, 1005 and so on to 1251 arrive.\nseal 9c4013890400000005000000000003eb\nseal 9c4013890400000005000000000003ed\nseal 9c4013890400000005000000000003ef\n\
seal 9c4013890400000005000000000003f1\nseal 9c4013890400000005000000000003f3\nseal 9c4013890400000005000000000003f5\nseal 9c4013890400000005000000000003f7\nseal 9c4013890400000005000000000003f9\n\
seal 9c4013890400000005000000000003fb\nseal 9c4013890400000005000000000003fd\nseal 9c4013890400000005000000000003ff\nseal 9c401389040000000500000000000401\nseal 9c401389040000000500000000000403\n\
seal 9c401389040000000500000000000405\nseal 9c401389040000000500000000000407\nseal 9c401389040000000500000000000409\nseal 9c40138904000000050000000000040b\nseal 9c40138904000000050000000000040d\n\
seal 9c40138904000000050000000000040f\nseal 9c401389040000000500000000000411\nseal 9c401389040000000500000000000413\nseal 9c401389040000000500000000000415\nseal 9c401389040000000500000000000417\n\
seal 9c401389040000000500000000000419\nseal 9c40138904000000050000000000041b\nseal 9c40138904000000050000000000041d\nseal 9c40138904000000050000000000041f\nseal 9c401389040000000500000000000421\n\
seal 9c401389040000000500000000000423\nseal 9c401389040000000500000000000425\nseal 9c401389040000000500000000000427\nseal 9c401389040000000500000000000429\nseal 9c40138904000000050000000000042b\n\
seal 9c40138904000000050000000000042d\nseal 9c40138904000000050000000000042f\nseal 9c401389040000000500000000000431\nseal 9c401389040000000500000000000433\nseal 9c401389040000000500000000000435\n\
seal 9c401389040000000500000000000437\nseal 9c401389040000000500000000000439\nseal 9c40138904000000050000000000043b\nseal 9c40138904000000050000000000043d\nseal 9c40138904000000050000000000043f\n\
seal 9c401389040000000500000000000441\nseal 9c401389040000000500000000000443\nseal 9c401389040000000500000000000445\nseal 9c401389040000000500000000000447\nseal 9c401389040000000500000000000449\n\
seal 9c40138904000000050000000000044b\nseal 9c40138904000000050000000000044d\nseal 9c40138904000000050000000000044f\nseal 9c401389040000000500000000000451\nseal 9c401389040000000500000000000453\n\
seal 9c401389040000000500000000000455\nseal 9c401389040000000500000000000457\nseal 9c401389040000000500000000000459\nseal 9c40138904000000050000000000045b\nseal 9c40138904000000050000000000045d\n\
seal 9c40138904000000050000000000045f\nseal 9c401389040000000500000000000461\nseal 9c401389040000000500000000000463\nseal 9c401389040000000500000000000465\nseal 9c401389040000000500000000000467\n\
seal 9c401389040000000500000000000469\nseal 9c40138904000000050000000000046b\nseal 9c40138904000000050000000000046d\nseal 9c40138904000000050000000000046f\nseal 9c401389040000000500000000000471\n\
seal 9c401389040000000500000000000473\nseal 9c401389040000000500000000000475\nseal 9c401389040000000500000000000477\nseal 9c401389040000000500000000000479\nseal 9c40138904000000050000000000047b\n\
seal 9c40138904000000050000000000047d\nseal 9c40138904000000050000000000047f\nseal 9c401389040000000500000000000481\nseal 9c401389040000000500000000000483\nseal 9c401389040000000500000000000485\n\
seal 9c401389040000000500000000000487\nseal 9c401389040000000500000000000489\nseal 9c40138904000000050000000000048b\nseal 9c40138904000000050000000000048d\nseal 9c40138904000000050000000000048f\n\
seal 9c401389040000000500000000000491\nseal 9c401389040000000500000000000493\nseal 9c401389040000000500000000000495\nseal 9c401389040000000500000000000497\nseal 9c401389040000000500000000000499\n\
seal 9c40138904000000050000000000049b\nseal 9c40138904000000050000000000049d\nseal 9c40138904000000050000000000049f\nseal 9c4013890400000005000000000004a1\nseal 9c4013890400000005000000000004a3\n\
seal 9c4013890400000005000000000004a5\nseal 9c4013890400000005000000000004a7\nseal 9c4013890400000005000000000004a9\nseal 9c4013890400000005000000000004ab\nseal 9c4013890400000005000000000004ad\n\
seal 9c4013890400000005000000000004af\nseal 9c4013890400000005000000000004b1\nseal 9c4013890400000005000000000004b3\nseal 9c4013890400000005000000000004b5\nseal 9c4013890400000005000000000004b7\n\
seal 9c4013890400000005000000000004b9\nseal 9c4013890400000005000000000004bb\nseal 9c4013890400000005000000000004bd\nseal 9c4013890400000005000000000004bf\nseal 9c4013890400000005000000000004c1\n\
seal 9c4013890400000005000000000004c3\nseal 9c4013890400000005000000000004c5\nseal 9c4013890400000005000000000004c7\nseal 9c4013890400000005000000000004c9\nseal 9c4013890400000005000000000004cb\n\
seal 9c4013890400000005000000000004cd\nseal 9c4013890400000005000000000004cf\nseal 9c4013890400000005000000000004d1\nseal 9c4013890400000005000000000004d3\nseal 9c4013890400000005000000000004d5\n\
seal 9c4013890400000005000000000004d7\nseal 9c4013890400000005000000000004d9\nseal 9c4013890400000005000000000004db\nseal 9c4013890400000005000000000004dd\nseal 9c4013890400000005000000000004df\n\
seal 9c4013890400000005000000000004e1\nseal 9c4013890400000005000000000004e3\n# The Ack 1253 asks again: the Ack 2002 has a vector of 253 bytes, whole: it ends in 01, for 1001 and 1000.\n\
seal 9c4013890800000007000000000004e500000000000007d02005050000000000\n# The Ack 1255 asks again: the vector of 2003 would have 255 bytes, and is cut after 253.\n\
seal 9c4013890800000007000000000004e700000000000007d02005050000000000\n# The Ack 1257 acknowledges 2003: the floor stays, and the vector of 2004 begins at 1257 and is cut too.\n\
seal 9c4013890800000007000000000004e900000000000007d32005050000000000\n# The Ack 1259 acknowledges 2002, which was whole up to 1253: the floor is 1254, and the vector of 2005 is 00 c0 00 c0 00 c0.\n\
seal 9c4013890800000007000000000004eb00000000000007d22005050000000000\n# The Ack 1261 acknowledges 2004, whose vector was cut: the vector of 2006 still ends at 1254.\n\
seal 9c4013890800000007000000000004ed00000000000007d42005050000000000\n=> Done\n4: took\nsent s0 13899c400a00d2fb03000000000007d000000000000003e80000002a210606010100230505000000\n5: took\n\
sent s1 13899c400700fb3807000000000007d100000000000003e926030100\n7: took data -\n8: took data -\n9: took data -\n10: took data -\n11: took data -\n12: took data -\n13: took data -\n14: took data -\n\
15: took data -\n16: took data -\n17: took data -\n18: took data -\n19: took data -\n20: took data -\n21: took data -\n22: took data -\n23: took data -\n24: took data -\n25: took data -\n\
26: took data -\n27: took data -\n28: took data -\n29: took data -\n30: took data -\n31: took data -\n32: took data -\n33: took data -\n34: took data -\n35: took data -\n36: took data -\n\
37: took data -\n38: took data -\n39: took data -\n40: took data -\n41: took data -\n42: took data -\n43: took data -\n44: took data -\n45: took data -\n46: took data -\n47: took data -\n\
48: took data -\n49: took data -\n50: took data -\n51: took data -\n52: took data -\n53: took data -\n54: took data -\n55: took data -\n56: took data -\n57: took data -\n58: took data -\n\
59: took data -\n60: took data -\n61: took data -\n62: took data -\n63: took data -\n64: took data -\n65: took data -\n66: took data -\n67: took data -\n68: took data -\n69: took data -\n\
70: took data -\n71: took data -\n72: took data -\n73: took data -\n74: took data -\n75: took data -\n76: took data -\n77: took data -\n78: took data -\n79: took data -\n80: took data -\n\
81: took data -\n82: took data -\n83: took data -\n84: took data -\n85: took data -\n86: took data -\n87: took data -\n88: took data -\n89: took data -\n90: took data -\n91: took data -\n\
92: took data -\n93: took data -\n94: took data -\n95: took data -\n96: took data -\n97: took data -\n98: took data -\n99: took data -\n100: took data -\n101: took data -\n102: took data -\n\
103: took data -\n104: took data -\n105: took data -\n106: took data -\n107: took data -\n108: took data -\n109: took data -\n110: took data -\n111: took data -\n112: took data -\n113: took data -\n\
114: took data -\n115: took data -\n116: took data -\n117: took data -\n118: took data -\n119: took data -\n120: took data -\n121: took data -\n122: took data -\n123: took data -\n124: took data -\n\
125: took data -\n126: took data -\n127: took data -\n128: took data -\n129: took data -\n130: took data -\n131: took data -\n133: took\n\
sent s2 13899c404700549707000000000007d200000000000004e526ff00c000c000c000c000c000c000c000c000c000c000c000c000c000c000c000c000c000c000c000c000c000c000c000c000c000c000c000c000c000c000c000c000c000c000c000c000c000c000c000c000c000c000c000c000c000c000c000c000c000c000c000c000c000c000c000c000c000c000c000c000c000c000c000c000c000c000c000c000c000c000c000c000c000c000c000c000c000c000c000c000c000c000c000c000c000c000c000c000c000c000c000c000c000c000c000c000c000c000c000c000c000c000c000c000c000c000c000c000c000c000c000c000c000c000c000c000c000c000c000c000c000c000c000c000c000c0012305050000\n\
135: took\n\
sent s3 13899c404700559407000000000007d300000000000004e726ff00c000c000c000c000c000c000c000c000c000c000c000c000c000c000c000c000c000c000c000c000c000c000c000c000c000c000c000c000c000c000c000c000c000c000c000c000c000c000c000c000c000c000c000c000c000c000c000c000c000c000c000c000c000c000c000c000c000c000c000c000c000c000c000c000c000c000c000c000c000c000c000c000c000c000c000c000c000c000c000c000c000c000c000c000c000c000c000c000c000c000c000c000c000c000c000c000c000c000c000c000c000c000c000c000c000c000c000c000c000c000c000c000c000c000c000c000c000c000c000c000c000c000c000c000c000c0002305050000\n\
137: took\n\
sent s4 13899c404700559107000000000007d400000000000004e926ff00c000c000c000c000c000c000c000c000c000c000c000c000c000c000c000c000c000c000c000c000c000c000c000c000c000c000c000c000c000c000c000c000c000c000c000c000c000c000c000c000c000c000c000c000c000c000c000c000c000c000c000c000c000c000c000c000c000c000c000c000c000c000c000c000c000c000c000c000c000c000c000c000c000c000c000c000c000c000c000c000c000c000c000c000c000c000c000c000c000c000c000c000c000c000c000c000c000c000c000c000c000c000c000c000c000c000c000c000c000c000c000c000c000c000c000c000c000c000c000c000c000c000c000c000c000c0002305050000\n\
139: took\nsent s5 13899c400a00cddc07000000000007d500000000000004eb260800c000c000c02305050000000000\n141: took\n\
sent s6 13899c400a00cd1707000000000007d600000000000004ed260a00c000c000c000c0230505000000\nend server OPEN window 4 flight 0 1=2/2 2=0/0 3=100/100 4=0/0 5=2/0 6=1/0 7=0/0 8=0/0 9=0/0\n~ run\n\
# The client may send short numbers, and the server takes them: the handshake settles that. The client's Ack in PARTOPEN is\n# long, and its next one is short.\nplain\nset client here 2 1\n\
set server there 2 1\noffer client here 2\nopen\ndeliver c0\ndeliver s0\ndeliver c1\ndeliver s1\ntimer client ack\ndeliver c2\n=> Done\n7 open: ok\n\
sent c0 9c40138906000ee301000000000003e80000002a20040201\n8 deliver c0: took\nsent s0 13899c400900fe0503000000000007d000000000000003e80000002a2305020101000000\n9 deliver s0: took\n\
sent c1 9c4013890600234107000000000003e900000000000007d0\n10 deliver c1: took\nsent s1 13899c400600234007000000000007d100000000000003e9\n11 deliver s1: took\n12 timer client ack: fired\n\
sent c2 9c40138904002647060003ea000007d1\n13 deliver c2: took\nend client OPEN window 4 flight 0 1=2/2 2=1/0 3=100/100 4=0/0 5=2/2 6=0/0 7=0/0 8=0/0 9=0/0\n\
end server OPEN window 4 flight 0 1=2/2 2=0/1 3=100/100 4=0/0 5=2/2 6=0/0 7=0/0 8=0/0 9=0/0\n~ replay,--side,server,--plain\n# replay --side server --plain\n\
# A peer asks for short numbers, at either place. Nothing is shared, so that none are taken: the value stays 0.\n\n# Request 1000: Change L and Change R of Allow Short Seqnos, with the list 1\n\
9c4013890700e9d901000000000003e80000002a2004020122040201\n# Ack 1001 of 2000\n9c4013890600234107000000000003e900000000000007d0\n# Ack 1002 of 2001: with short numbers\n\
9c40138904002647060003ea000007d1\n# Data 1002: with short numbers\n9c4013890300a7af040003ea686921\n# Ack 1002 of 2001: Change L with the list 1, 0: 0 is shared\n\
9c4013890800ff3007000000000003ea00000000000007d12005020100000000\n# DataAck 1003 of 2002: with short numbers\n9c40138904009ad8080003eb000007d2686921\n# DataAck 1003 of 2002: the same with long ones\n\
9c401389060097d009000000000003eb00000000000007d2686921\n\n=> Done\n5: took\nsent s0 13899c400a00f8df03000000000007d000000000000003e80000002a230502000021050200000000\n7: took\n\
sent s1 13899c400600234007000000000007d100000000000003e9\n9: dropped ShortOff\n11: dropped ShortOff\n13: took\nsent s2 13899c400800fc3007000000000007d200000000000003ea2305020000000000\n\
15: dropped ShortOff\n17: took data 686921\nend server OPEN window 4 flight 0 1=2/2 2=0/0 3=100/100 4=0/0 5=2/2 6=0/0 7=0/0 8=0/0 9=0/0\n~ replay,--side,client,--plain\n\
\n\n\n\n\n\n\n\n\n\n\n\n\n\n\n\n\n\n# replay --side client --plain\n# At a client.\n\n# Response 2000 of 1000: Change L with the list 1\n\
13899c400800030b03000000000007d000000000000003e80000002a20040201\n# Ack 2001 of 1001: with short numbers\n13899c4004002648060007d1000003e9\n# Ack 2001 of 1001: the same with long ones\n\
13899c400600234007000000000007d100000000000003e9\n# Data 2002: with short numbers\n13899c400300a3c7040007d2686921\n=> Done\nopen: ok\nsent c0 9c401389050031ec01000000000003e80000002a\n23: took\n\
sent c1 9c4013890800fc3307000000000003e900000000000007d02305020000000000\n25: dropped ShortOff\n27: took\n29: dropped ShortOff\n\
end client OPEN window 4 flight 0 1=2/2 2=0/0 3=100/100 4=0/0 5=2/2 6=0/0 7=0/0 8=0/0 9=0/0\n~ run\n# The usual connection with data, under version 2: the frames are the same.\nversion 2\nopen\n\
deliver c0\ndeliver s0\ndeliver c1\ndeliver s1\nsend client aa\nsend client bb\nsend client cc\ndeliver c2\ndeliver c4\ndeliver s2\nsend client dd\ndeliver c5\ndeliver c3\ntimer server ack\n=> Done\n\
3 open: ok\nsent c0 9c401389080000b601000000000003e80000002a012004040101220406010000\n4 deliver c0: took\n\
sent s0 13899c400d00a1c303000000000007d000000000000003e80000002a230604010100210606010100012004040101220406010000\n5 deliver s0: took\n\
sent c1 9c4013890a00eadd07000000000003e900000000000007d026030023060401010021060601010000\n6 deliver c1: took\nsent s1 13899c400700fb3807000000000007d100000000000003e926030100\n7 deliver s1: took\n\
8 send client aa: ok\nsent c2 9c4013890700503609000000000003ea00000000000007d126030000aa\n9 send client bb: ok\nsent c3 9c4013890400741505000000000003ebbb\n10 send client cc: ok\n\
sent c4 9c4013890400631405000000000003eccc\n11 deliver c2: took data aa\n12 deliver c4: took data cc\nsent s2 13899c400800fa6e07000000000007d200000000000003ec260500c000000000\n13 deliver s2: took\n\
14 send client dd: ok\nsent c5 9c40138907001c3209000000000003ed00000000000007d226030100dd\n15 deliver c5: took data dd\n16 deliver c3: took\n17 timer server ack: fired\n\
sent s3 13899c400700fc3207000000000007d300000000000003ed26030000\nend client OPEN window 5 flight 2 1=2/2 2=0/0 3=100/100 4=1/1 5=2/2 6=1/1 7=0/0 8=0/0 9=0/0\n\
end server OPEN window 4 flight 0 1=2/2 2=0/0 3=100/100 4=1/1 5=2/2 6=1/1 7=0/0 8=0/0 9=0/0\n~ campaign,--first,1,--seeds,3,--events,1,--workers,2\n\
# campaign --first 1 --seeds 3 --events 1 --workers 2\n=> Done\nseeds 3\nevents 3\nclient_frames 3\nserver_frames 0\ntook 0\ndelivered 0\ndropped 0\nsynced 0\nwas_reset 0\nsent_reset 0\nrefused 0\n\
settled 48\n~ campaign,--first,1,--seeds,1,--events,12,--workers,1\n# campaign --first 1 --seeds 1 --events 12 --workers 1\n=> Done\nseeds 1\nevents 12\nclient_frames 8\nserver_frames 1\ntook 7\n\
delivered 0\ndropped 0\nsynced 0\nwas_reset 0\nsent_reset 0\nrefused 2\nsettled 16\n~ campaign,--first,1,--seeds,8,--events,250,--workers,3\n# campaign --first 1 --seeds 8 --events 250 --workers 3\n\
=> Done\nseeds 8\nevents 2000\nclient_frames 252\nserver_frames 320\ntook 1293\ndelivered 76\ndropped 103\nsynced 20\nwas_reset 2\nsent_reset 78\nrefused 61\nsettled 118\n\
~ campaign,--workers=3,--events=500,--seeds=4,--first=18446744073709551612\n# campaign --workers=3 --events=500 --seeds=4 --first=18446744073709551612\n=> Done\nseeds 4\nevents 2000\n\
client_frames 275\nserver_frames 253\ntook 1492\ndelivered 95\ndropped 0\nsynced 10\nwas_reset 0\nsent_reset 0\nrefused 23\nsettled 58\n~ listen,--most,2\n# listen --most 2\n\
# A peer asks for a service that is not there, asks again for one that is, and opens; another peer asks meanwhile.\n10.0.0.1:40000 seal 9c4013890500000001000000000003e80000002c\n\
10.0.0.1:40000 seal 9c4013890500000001000000000003e80000002a\n10.0.0.3:40000 seal 9c4013890500000001000000000003e80000002b\n10.0.0.1:40000 seal 9c4013890600000007000000000003e900000000000007d0\n\
=> Done\n3 10.0.0.1:40000: sent reset 8 0 0 0\nsent 10.0.0.1:40000 13899c4007001a0e0f0000000000000000000000000003e808000000\n4 10.0.0.1:40000: took\n\
sent 10.0.0.1:40000 13899c400700261403000000000007d000000000000003e80000002a\n5 10.0.0.3:40000: took\nsent 10.0.0.3:40000 13899c400700261103000000000007d000000000000003e80000002b\n\
6 10.0.0.1:40000: took\nsent 10.0.0.1:40000 13899c400600234007000000000007d100000000000003e9\nflows 2\nflow 10.0.0.1:40000 OPEN\nflow 10.0.0.3:40000 RESPOND\n~ listen,--most,1\n# listen --most 1\n\
# There may be one flow. The second peer is told that the listener is busy, and has no end that could close.\n10.0.0.1:40000 seal 9c4013890500000001000000000003e80000002a\n\
10.0.0.3:40000 seal 9c4013890500000001000000000003e80000002b\n10.0.0.3:40000 close\n=> Done\n3 10.0.0.1:40000: took\nsent 10.0.0.1:40000 13899c400700261403000000000007d000000000000003e80000002a\n\
4 10.0.0.3:40000: busy\nsent 10.0.0.3:40000 13899c400700190c0f0000000000000000000000000003e809000000\n5 10.0.0.3:40000: refused NoFlow\nflows 1\nflow 10.0.0.1:40000 RESPOND\n~ ecn\n# ecn\n\
# One packet of three is marked on its way: its nonce is lost, and those of the others are 0 together.\nsend 1\nsend 0\nsend 1\ndeliver 0\nmark 1\ndeliver 2\nreport\ncheck 0\nforge 0\n=> Done\n\
3 send 1: ok\n4 send 0: ok\n5 send 1: ok\n6 deliver 0: new\n7 mark 1: new\n8 deliver 2: new\n9 report: vector 38 004000\n10 check 0: fits\n11 forge 0: unfit\nsent 3 reports 1\n~ ecn\n# ecn\n\
# A packet comes marked, and then again, unmarked: the first receipt counts. Before it there is nothing to report.\nsend 1\nreport\nmark 0\ndeliver 0\nreport\ncheck 0\n=> Done\n3 send 1: ok\n\
4 report: nothing\n5 mark 0: new\n6 deliver 0: again\n7 report: vector 38 40\n8 check 0: fits\nsent 1 reports 1\n~ replay,--side,server,--plain,--buffer,1\n# replay --side server --plain --buffer 1\n\
# A buffer of one place. The handshake, and data that are held.\nseal 9c4013890500000001000000000003e80000002a\nseal 9c4013890600000007000000000003e900000000000007d0\n\
seal 9c4013890400000005000000000003eaaa\n# The Data 1003 finds it full: the Ack reports its drop, code 2, and that the receiver is slow.\nseal 9c4013890400000005000000000003ebbb\nread\nread\n\
# The application listens no more.\nstop\nseal 9c4013890400000005000000000003eccc\n=> Done\n3: took\nsent s0 13899c400700261403000000000007d000000000000003e80000002a\n4: took\n\
sent s1 13899c400600234007000000000007d100000000000003e9\n5: took data aa\n7: took dropped 2\nsent s2 13899c4007005a3307000000000007d200000000000003eb2803a002\n8: read aa\n9: empty\n11: ok\n\
12: took dropped 1\nend server OPEN window 4 flight 0 1=2/2 2=0/0 3=100/100 4=0/0 5=2/2 6=0/0 7=0/0 8=0/0 9=0/0\n";

#[test]
fn worked_cases_in_pieces(rt: HostRuntime) -> Result<(), Fail> {
    cases_come(&rt, rt.alloc(), (Tool::Dccp, Way::InPieces), IN_PIECES)
}

#[test]
fn worked_cases(rt: HostRuntime) -> Result<(), Fail> {
    cases_come(&rt, rt.alloc(), (Tool::Dccp, Way::Whole), WHOLE)
}
