//! The second tool: its forms over streams in memory. The same calls, and what is refused, are worked rows of proofs/.
use crate::calls::Tool;
use crate::cases::{Way, cases_come};
use std::test::Fail;

// A pcapng file of two sections; a transcript; a flow to its server; the records of a capture, and of one of the "any"
// device of Linux; a capture, a transcript and a section that are refused; and a schedule.
pub(crate) const CALLS: &str = "\
~ unwrap\n\
0a0d0d0a000000201a2b3c4d00010000ffffffffffffffff00000000000000200000000100000028000100000004000000020001610000000009\
0001030000000000000000000028000000050000000c0000000c000000010000002c0065000000000000000e0008ffffffffffffffff00090001\
89000000000000000000002c00000006000000340000000000000000000005dc0000001200000040020202020202020202020202080045000028\
00000000003400000006000000240000000100000000000006010000000100000028600000000000002400000003000000200000000f02020202\
020202020202020286dd6000000000200a0d0d0a1c0000004d3c2b1a01000000ffffffffffffffff1c0000000100000014000000650000000000\
000014000000060000002400000000000000010000000000000001000000280000004500000024000000\
=> Done skipped blocks of other types: 1, first 5\n\
a1b2c3d40002000400000000000000000004000000000065000000010007a12000000004000000324500002800000002000007a1000000010000\
0028600000000000000000000000010000000160000010c6000ec280000000010000002845\
~ capture\n\
2 open: ok\nsent c0 9c401389050031ec01000000000003e80000002a\n3 deliver c0: took\n\
sent s0 13899c400700261403000000000007d000000000000003e80000002a\nend client REQUEST window 4 flight 0 1=2/2\n\
# the next transcript\n\nopen: ok\n1: sent reset 4 2 0 0\n\
sent c1 9c4013890700163b0f000000000003e900000000000007d004020000\nline 4 column 1: BadHex\n\
=> Input line 11 column 1: UnknownWord\n\
a1b2c3d40002000400000000000000000004000000000065000000020000000000000028000000284500002800004000402126b30a0000010a00\
00029c401389050031ec01000000000003e80000002a000000030000000000000030000000304500003000004000402126ab0a0000020a000001\
13899c400700261403000000000007d000000000000003e80000002a000000010000000000000030000000304500003000004000402126ab0a00\
00010a0000029c4013890700163b0f000000000003e900000000000007d004020000\
~ frames,--flow,1,--side,server\n\
a1b2c3d400020004000000000000000000040000000000650000000100000000000000280000002845000028000040004021b6b1c0000201c000\
02021b58002105005a4101000000000000070000000500000002000000000000002c0000002c4500002c000040004021b6adc0000201c0000202\
1b5800210600534207000000000000080000fffffffffffe0000000300000000000000300000003045000030000040004021b6a9c0000202c000\
020100211b580700563a0300fffffffffffe00000000000000070000000500000004000000000000002c0000002c4500002c000040004021b6ad\
c0000201c00002021b5800210600534107000000000000090000fffffffffffe0000000500000000000000280000002845000028000040004021\
b6b1c0000201c00002021b59002105005a460100000000000001000000050000000600000000000000250000002545000025000040004021b6b4\
c0000201c00002021b5800210400aa440800000a00000001aa0000000700000000000000210000002145000021000040004021b6b8c0000202c0\
00020100211b5803009e5104000002bb0000000800000000000000300000003045000030000040004021b6a9c0000202c000020100211b580700\
46380f0000000000000300000000000000080402000000000009000000000000002c0000002c4500002c000040004021b6adc0000201c0000202\
1b58002106004937110000000000000b0000000000000007\
=> Done\n\
# 1 1.000000 flow 1 192.0.2.1 7000 > 192.0.2.2 33 Request seq 7 service 5 data 0 sum ok\n\
seal 9c4013890500000001000000000000070000002a\n\
# 2 2.000000 flow 1 192.0.2.1 7000 > 192.0.2.2 33 Ack seq 8 ack 281474976710654 data 0 sum ok\n\
# no frame: NumberUnknown\n\
# 4 4.000000 flow 1 192.0.2.1 7000 > 192.0.2.2 33 Ack seq 9 ack 281474976710654 data 0 sum ok\n\
seal 9c40138906000000070000000000000900000000000007d0\n\
# 6 6.000000 flow 1 192.0.2.1 7000 > 192.0.2.2 33 DataAck seq 10 ack 1 data 1 sum ok\n\
seal 9c401389040000000800000a000007d3aa\n\
# 9 9.000000 flow 1 192.0.2.1 7000 > 192.0.2.2 33 Sync seq 11 ack 7 data 0 sum ok\n\
seal 9c40138906000000110000000000000b00000000000007d9\n\
~ frames,--flow,1,--side,server\n\
a1b2c3d400020004000000000000000000040000000000650000000100000000000000280000002845000028000040004021b6b1c0000201c000\
02021b58002105005a4101000000000000070000000500\
=> Input capture CutShort after record 1\n\
# 1 1.000000 flow 1 192.0.2.1 7000 > 192.0.2.2 33 Request seq 7 service 5 data 0 sum ok\n\
seal 9c4013890500000001000000000000070000002a\n\
~ frames,--flow,1,--side,server\n\
a1b2c3d400020004000000000000000000040000000000650000000100000000000000280000002845000028000040004021b6b1c0000201c000\
02021b58002105005a4101000000000000070000000500000002000000000000002c0000002c4500002c000040004021b6adc0000201c0000202\
1b5800210600534207000000000000080000fffffffffffe0000000300000000000000300000003045000030000040004021b6a9c0000202c000\
020100211b580700563a0300fffffffffffe0000000000000007000000\
=> Input capture CutShort after record 2\n\
# 1 1.000000 flow 1 192.0.2.1 7000 > 192.0.2.2 33 Request seq 7 service 5 data 0 sum ok\n\
seal 9c4013890500000001000000000000070000002a\n\
# 2 2.000000 flow 1 192.0.2.1 7000 > 192.0.2.2 33 Ack seq 8 ack 281474976710654 data 0 sum ok\n\
# no frame: NumberUnknown\n\
~ json\n\
a1b2c3d40002000400000000000000000004000000000001000000010007a1200000003b0000003b02000000000202000000000108004500002d\
00000000402100000a0000010a0000029c4013890552221a080003e8000007d02503070068656c6c6f0000000200000000000000560000005602\
00000000020200000000018100000786dd60000000001c214020010db800000000000000000000000120010db80000000000000000000000a29c\
401389070000010f000000000007d100000000000003e80901020300000003000000000000002e0000002e020000000002020000000001080045\
00002000000000402100000a0000010a0000029c4013890300000014000000000000040000000000000010000000100200000000020200000000\
01080600000000000500000000000000320000003602000000000202000000000108004500002800000000402100000a0000010a0000029c4013\
8903000000040003e961626364\
=> Done\n\
{\"acknowledgement\":2000,\"captured\":59,\"ccval\":5,\"checksum\":8730,\"cscov\":2,\"data\":5,\
\"destination\":\"10.0.0.2\",\"destination_port\":5001,\"ecn\":0,\"flow\":1,\"length\":59,\"link\":1,\
\"nanoseconds\":500000000,\"options\":[{\"count\":7,\"mandatory\":false,\"name\":\"ndp-count\",\"type\":37}],\
\"record\":1,\"seconds\":1,\"sequence\":1000,\"short\":true,\"source\":\"10.0.0.1\",\"source_port\":40000,\
\"ttl\":64,\"type\":\"DataAck\",\"verdict\":\"ok\"}\n\
{\"acknowledgement\":1000,\"captured\":86,\"ccval\":0,\"checksum\":1,\"cscov\":0,\"data\":0,\"data_1\":1,\
\"data_2\":2,\"data_3\":3,\"destination\":\"2001:db8::a2\",\"destination_port\":5001,\"ecn\":0,\"flow\":2,\
\"length\":86,\"link\":1,\"nanoseconds\":0,\"options\":[],\"record\":2,\"reset_code\":9,\"seconds\":2,\
\"sequence\":2001,\"short\":false,\"source\":\"2001:db8::1\",\"source_port\":40000,\"ttl\":64,\"type\":\"Reset\",\
\"verdict\":\"wrong\"}\n\
{\"captured\":46,\"destination\":\"10.0.0.2\",\"ecn\":0,\"length\":46,\"link\":1,\"malformed\":\"ReservedType\",\
\"nanoseconds\":0,\"record\":3,\"seconds\":3,\"source\":\"10.0.0.1\",\"ttl\":64}\n\
{\"captured\":16,\"length\":16,\"link\":1,\"nanoseconds\":0,\"record\":4,\"seconds\":4,\"skipped\":\"NotIp\"}\n\
{\"captured\":50,\"ccval\":0,\"checksum\":0,\"cscov\":0,\"data\":4,\"destination\":\"10.0.0.2\",\
\"destination_port\":5001,\"ecn\":0,\"flow\":1,\"length\":54,\"link\":1,\"nanoseconds\":0,\"options\":[],\
\"record\":5,\"seconds\":5,\"sequence\":1001,\"short\":true,\"source\":\"10.0.0.1\",\"source_port\":40000,\
\"ttl\":64,\"type\":\"Data\",\"verdict\":\"unknown\"}\n\
~ json\n\
=> Input capture CutShort after record 0\n\
{\"fault\":\"CutShort\",\"records\":0}\n\
~ json\n\
a1b2c3d40002000400000000000000000004000000000001000000010007a1200000003b0000003b02000000000202000000000108004500002d\
00000000402100000a0000010a0000029c4013890552221a080003e8000007d02503070068656c6c\
=> Input capture CutShort after record 0\n\
{\"fault\":\"CutShort\",\"records\":0}\n\
~ json\n\
a1b2c3d40002000400000000000000000004000000000001000000010007a1200000003b0000003b02000000000202000000000108004500002d\
00000000402100000a0000010a0000029c4013890552221a080003e8000007d02503070068656c6c6f0000000200000000000000560000005602\
00000000020200000000018100000786dd60000000001c214020010db800000000000000000000000120010db80000000000000000000000a29c\
401389070000010f000000000007d100000000000003e80901020300000003000000000000002e0000002e020000000002020000000001080045\
00002000000000402100000a0000010a0000029c4013890300000014000000000000040000000000000010000000100200000000020200000000\
01080600000000000500000000000000320000003602000000000202000000000108004500002800000000402100000a0000010a0000029c4013\
8903000000040003e9616263\
=> Input capture CutShort after record 4\n\
{\"acknowledgement\":2000,\"captured\":59,\"ccval\":5,\"checksum\":8730,\"cscov\":2,\"data\":5,\
\"destination\":\"10.0.0.2\",\"destination_port\":5001,\"ecn\":0,\"flow\":1,\"length\":59,\"link\":1,\
\"nanoseconds\":500000000,\"options\":[{\"count\":7,\"mandatory\":false,\"name\":\"ndp-count\",\"type\":37}],\
\"record\":1,\"seconds\":1,\"sequence\":1000,\"short\":true,\"source\":\"10.0.0.1\",\"source_port\":40000,\
\"ttl\":64,\"type\":\"DataAck\",\"verdict\":\"ok\"}\n\
{\"acknowledgement\":1000,\"captured\":86,\"ccval\":0,\"checksum\":1,\"cscov\":0,\"data\":0,\"data_1\":1,\
\"data_2\":2,\"data_3\":3,\"destination\":\"2001:db8::a2\",\"destination_port\":5001,\"ecn\":0,\"flow\":2,\
\"length\":86,\"link\":1,\"nanoseconds\":0,\"options\":[],\"record\":2,\"reset_code\":9,\"seconds\":2,\
\"sequence\":2001,\"short\":false,\"source\":\"2001:db8::1\",\"source_port\":40000,\"ttl\":64,\"type\":\"Reset\",\
\"verdict\":\"wrong\"}\n\
{\"captured\":46,\"destination\":\"10.0.0.2\",\"ecn\":0,\"length\":46,\"link\":1,\"malformed\":\"ReservedType\",\
\"nanoseconds\":0,\"record\":3,\"seconds\":3,\"source\":\"10.0.0.1\",\"ttl\":64}\n\
{\"captured\":16,\"length\":16,\"link\":1,\"nanoseconds\":0,\"record\":4,\"seconds\":4,\"skipped\":\"NotIp\"}\n\
{\"fault\":\"CutShort\",\"records\":4}\n\
~ unwrap\n\
d4c3b2a1020004000000000000000000ffff0000140100000100000020a10700180000003c000000080000000000000300010006020202020202\
00004500002802000000000000001600000030000000080600000000000300010006020202020202000000010300000000000000190000001900\
00008100000000000003000100060202020202020000000786dd6004000000090000000000000005000000\
=> Done\n\
a1b2c3d40002000400000000000000000004000000000065000000010007a1200000000400000028450000280000000200000000000000000000\
0000000000030000000000000001000000016000000004000000090000000000000000\
~ unwrap\n\
d4c3b2a1020004000000000000000000ffff0000140100000100000020a10700180000003c000000080000000000000300010006020202020202\
00004500002802\
=> Input capture CutShort after record 1\n\
a1b2c3d40002000400000000000000000004000000000065000000010007a120000000040000002845000028\
~ capture\n\
sent c0 00 x\
=> Input line 1 column 12: Trailing\n\
a1b2c3d40002000400000000000000000004000000000065\
~ unwrap\n\
0a0d0d0a000000201a2b3c4d00010000ffffffffffffffff0000000000000020\
=> Done\n\
a1b2c3d40002000400000000000000000004000000000065\
~ json,--payload\n\
a1b2c3d400020004000000000000000000040000000000650000000000000000000000760000007660200000004e003d20010db8000000000000\
00000000000120010db80000000000000000000000022b00000000000000210200010000000020010db80000000100000000000000039c401389\
0b00ba82070000000000000700000000000000052005e0fd1a26040a272a082643607d9ab70000006162\
=> Done\n\
{\"acknowledgement\":5,\"captured\":118,\"ccval\":0,\"checksum\":47746,\"cscov\":0,\"data\":2,\
\"destination\":\"2001:db8:0:1::3\",\"destination_port\":5001,\"ecn\":2,\"flow\":1,\"length\":118,\"link\":101,\
\"nanoseconds\":0,\"options\":[{\"feature\":224,\"mandatory\":false,\"name\":\"change-l\",\"type\":32,\
\"values\":[253,26]},{\"mandatory\":false,\"name\":\"ack-vector-0\",\"nonce\":0,\"runs\":[{\"length\":11,\
\"state\":0},{\"length\":40,\"state\":0}],\"type\":38},{\"elapsed\":39607,\"mandatory\":false,\
\"name\":\"timestamp-echo\",\"timestamp\":641949821,\"type\":42}],\"payload\":\"6162\",\"record\":1,\"seconds\":0,\
\"sequence\":7,\"short\":false,\"source\":\"2001:db8::1\",\"source_port\":40000,\"ttl\":61,\"type\":\"Ack\",\
\"verdict\":\"ok\"}\n\
~ unwrap\n\
a1b2c3d400020004000000000000000000040000000000650000000000000000000000760000007660200000004e003d20010db8000000000000\
00000000000120010db80000000000000000000000022b00000000000000210200010000000020010db80000000100000000000000039c401389\
0b00ba82070000000000000700000000000000052005e0fd1a26040a272a082643607d9ab70000006162\
=> Done\n\
a1b2c3d400020004000000000000000000040000000000650000000000000000000000560000005660200000002e213d20010db8000000000000\
00000000000120010db80000000100000000000000039c4013890b00ba82070000000000000700000000000000052005e0fd1a26040a272a0826\
43607d9ab70000006162\
~ seed,--seed,7,--events,20\n\
=> Done\n\
iss client 104355234454718\niss server 5075881245380\nopen\ntimer client rto\ndeliver c0\ndeliver c0\ndeliver s1\n\
deliver c0\ndeliver c0\nprefer client here 1 2,248\ndeliver s1\ndeliver c0\ndeliver s3\ndeliver c3\ndeliver s0\n\
send server e4388d89\nprefer server there 8 3,1\ndeliver s0\ndeliver c4\nprefer client here 1 248,2\n\
send server 0d765065\ndeliver c3\n";

// A flow to its client. Of the other flow nothing goes to the client, and a third one is not there.
const MORE_CALLS: &str = "\
~ frames,--side,client,--flow,1\n\
a1b2c3d400020004000000000000000000040000000000650000000100000000000000280000002845000028000040004021b6b1c0000201c000\
02021b58002105005a4101000000000000070000000500000002000000000000002c0000002c4500002c000040004021b6adc0000201c0000202\
1b5800210600534207000000000000080000fffffffffffe0000000300000000000000300000003045000030000040004021b6a9c0000202c000\
020100211b580700563a0300fffffffffffe00000000000000070000000500000004000000000000002c0000002c4500002c000040004021b6ad\
c0000201c00002021b5800210600534107000000000000090000fffffffffffe0000000500000000000000280000002845000028000040004021\
b6b1c0000201c00002021b59002105005a460100000000000001000000050000000600000000000000250000002545000025000040004021b6b4\
c0000201c00002021b5800210400aa440800000a00000001aa0000000700000000000000210000002145000021000040004021b6b8c0000202c0\
00020100211b5803009e5104000002bb0000000800000000000000300000003045000030000040004021b6a9c0000202c000020100211b580700\
46380f0000000000000300000000000000080402000000000009000000000000002c0000002c4500002c000040004021b6adc0000201c0000202\
1b58002106004937110000000000000b0000000000000007\
=> Done\n\
# 3 3.000000 flow 1 192.0.2.2 33 > 192.0.2.1 7000 Response seq 281474976710654 ack 7 service 5 data 0 sum ok\n\
seal 13899c40070000000300fffffffffffe00000000000003e80000002a\n\
# 7 7.000000 flow 1 192.0.2.2 33 > 192.0.2.1 7000 Data seq 2 data 1 sum ok\nseal 13899c400300000004000002bb\n\
# 8 8.000000 flow 1 192.0.2.2 33 > 192.0.2.1 7000 Reset seq 3 ack 8 code 4 2 0 0 data 0 sum ok\n\
seal 13899c40070000000f0000000000000300000000000003e904020000\n\
~ frames,--flow,2,--side,client\n\
a1b2c3d400020004000000000000000000040000000000650000000100000000000000280000002845000028000040004021b6b1c0000201c000\
02021b58002105005a4101000000000000070000000500000002000000000000002c0000002c4500002c000040004021b6adc0000201c0000202\
1b5800210600534207000000000000080000fffffffffffe0000000300000000000000300000003045000030000040004021b6a9c0000202c000\
020100211b580700563a0300fffffffffffe00000000000000070000000500000004000000000000002c0000002c4500002c000040004021b6ad\
c0000201c00002021b5800210600534107000000000000090000fffffffffffe0000000500000000000000280000002845000028000040004021\
b6b1c0000201c00002021b59002105005a460100000000000001000000050000000600000000000000250000002545000025000040004021b6b4\
c0000201c00002021b5800210400aa440800000a00000001aa0000000700000000000000210000002145000021000040004021b6b8c0000202c0\
00020100211b5803009e5104000002bb0000000800000000000000300000003045000030000040004021b6a9c0000202c000020100211b580700\
46380f0000000000000300000000000000080402000000000009000000000000002c0000002c4500002c000040004021b6adc0000201c0000202\
1b58002106004937110000000000000b0000000000000007\
=> Done\n\
~ frames,--flow,3,--side,server\n\
a1b2c3d400020004000000000000000000040000000000650000000100000000000000280000002845000028000040004021b6b1c0000201c000\
02021b58002105005a4101000000000000070000000500000002000000000000002c0000002c4500002c000040004021b6adc0000201c0000202\
1b5800210600534207000000000000080000fffffffffffe0000000300000000000000300000003045000030000040004021b6a9c0000202c000\
020100211b580700563a0300fffffffffffe00000000000000070000000500000004000000000000002c0000002c4500002c000040004021b6ad\
c0000201c00002021b5800210600534107000000000000090000fffffffffffe0000000500000000000000280000002845000028000040004021\
b6b1c0000201c00002021b59002105005a460100000000000001000000050000000600000000000000250000002545000025000040004021b6b4\
c0000201c00002021b5800210400aa440800000a00000001aa0000000700000000000000210000002145000021000040004021b6b8c0000202c0\
00020100211b5803009e5104000002bb0000000800000000000000300000003045000030000040004021b6a9c0000202c000020100211b580700\
46380f0000000000000300000000000000080402000000000009000000000000002c0000002c4500002c000040004021b6adc0000201c0000202\
1b58002106004937110000000000000b0000000000000007\
=> Done\n";

// Words, and the schedule that a model apart draws: of one event; with data and a list for each end; with frames of
// both ends and a timer; of the greatest seed, with its words in other orders. What is counted of a seed whose events
// were drawn apart (seeds.rt), and of one that only opens. Then words that are none of a form,
// which are answered by the line that docs/TOOL.md has.
const WORDS: &str = "\
~ seed,--seed,0,--events,1\n\
unread\
=> Done\n\
iss client 238611144654807\niss server 56982387732286\nopen\n\
~ seed,--seed,1,--events,12\n\
unread\
=> Done\n\
iss client 13084579918830\niss server 78413514437056\nopen\nprefer server here 1 2,248\nsend client 1a565dc0\n\
timer client request\ndeliver c1\ndeliver s0\ndeliver s0\ndeliver s0\ndeliver s0\ndeliver s0\ndeliver s0\n\
timer server negotiate\n\
~ seed,--seed,7,--events,20\n\
unread\
=> Done\n\
iss client 104355234454718\niss server 5075881245380\nopen\ntimer client rto\ndeliver c0\ndeliver c0\ndeliver s1\n\
deliver c0\ndeliver c0\nprefer client here 1 2,248\ndeliver s1\ndeliver c0\ndeliver s3\ndeliver c3\ndeliver s0\n\
send server e4388d89\nprefer server there 8 3,1\ndeliver s0\ndeliver c4\nprefer client here 1 248,2\n\
send server 0d765065\ndeliver c3\n\
~ seed,--events=8,--seed=18446744073709551615\n\
unread\
=> Done\n\
iss client 168767807923846\niss server 230952348278845\nopen\ndeliver c0\ntimer server ack\n\
prefer client here 1 2,248\ndeliver c0\ndeliver s0\ndeliver s0\ndeliver s0\n\
~ seeds,--first,1,--seeds,1,--events,12\n\
unread\
=> Done\n\
{\"client_frames\":8,\"delivered\":0,\"dropped\":0,\"events\":12,\"refused\":2,\"seed\":1,\"sent_reset\":0,\"server_frames\":1,\"settled\":16,\"state\":\"unsettled\",\"synced\":0,\"took\":7,\"was_reset\":0}\n\
~ seeds,--events=1,--seeds=1,--first=18446744073709551615\n\
unread\
=> Done\n\
{\"client_frames\":1,\"delivered\":0,\"dropped\":0,\"events\":1,\"refused\":0,\"seed\":18446744073709551615,\"sent_reset\":0,\"server_frames\":0,\"settled\":16,\"state\":\"unsettled\",\"synced\":0,\"took\":0,\"was_reset\":0}\n\
~ seed\nunread=> Words \
usage: dccp_bridge capture | unwrap | seed --seed S --events E | seeds --first F --seeds N --events E | frames --flow F --side server|client | json [--payload] | ladder [--flow F] | windows [--flow F]\n\
~ seed,--seed,1\nunread=> Words \
usage: dccp_bridge capture | unwrap | seed --seed S --events E | seeds --first F --seeds N --events E | frames --flow F --side server|client | json [--payload] | ladder [--flow F] | windows [--flow F]\n\
~ seed,--events,1\nunread=> Words \
usage: dccp_bridge capture | unwrap | seed --seed S --events E | seeds --first F --seeds N --events E | frames --flow F --side server|client | json [--payload] | ladder [--flow F] | windows [--flow F]\n\
~ seed,--seed,1,--events,0\nunread=> Words \
usage: dccp_bridge capture | unwrap | seed --seed S --events E | seeds --first F --seeds N --events E | frames --flow F --side server|client | json [--payload] | ladder [--flow F] | windows [--flow F]\n\
~ seed,--seed,1,--events,4097\nunread=> Words \
usage: dccp_bridge capture | unwrap | seed --seed S --events E | seeds --first F --seeds N --events E | frames --flow F --side server|client | json [--payload] | ladder [--flow F] | windows [--flow F]\n\
~ seed,--seed,18446744073709551616,--events,1\nunread=> Words \
usage: dccp_bridge capture | unwrap | seed --seed S --events E | seeds --first F --seeds N --events E | frames --flow F --side server|client | json [--payload] | ladder [--flow F] | windows [--flow F]\n\
~ seed,--seed,01,--events,1\nunread=> Words \
usage: dccp_bridge capture | unwrap | seed --seed S --events E | seeds --first F --seeds N --events E | frames --flow F --side server|client | json [--payload] | ladder [--flow F] | windows [--flow F]\n\
~ seed,--seed,-1,--events,1\nunread=> Words \
usage: dccp_bridge capture | unwrap | seed --seed S --events E | seeds --first F --seeds N --events E | frames --flow F --side server|client | json [--payload] | ladder [--flow F] | windows [--flow F]\n\
~ seed,--seed,1,--events,1,--seed,1\nunread=> Words \
usage: dccp_bridge capture | unwrap | seed --seed S --events E | seeds --first F --seeds N --events E | frames --flow F --side server|client | json [--payload] | ladder [--flow F] | windows [--flow F]\n\
~ seed,--seed,1,--events,1,--workers,1\nunread=> Words \
usage: dccp_bridge capture | unwrap | seed --seed S --events E | seeds --first F --seeds N --events E | frames --flow F --side server|client | json [--payload] | ladder [--flow F] | windows [--flow F]\n\
~ seed,--seed,1,--events,1,--\nunread=> Words \
usage: dccp_bridge capture | unwrap | seed --seed S --events E | seeds --first F --seeds N --events E | frames --flow F --side server|client | json [--payload] | ladder [--flow F] | windows [--flow F]\n\
~ seed,1,1\nunread=> Words \
usage: dccp_bridge capture | unwrap | seed --seed S --events E | seeds --first F --seeds N --events E | frames --flow F --side server|client | json [--payload] | ladder [--flow F] | windows [--flow F]\n\
~ seed,--help\nunread=> Words \
usage: dccp_bridge capture | unwrap | seed --seed S --events E | seeds --first F --seeds N --events E | frames --flow F --side server|client | json [--payload] | ladder [--flow F] | windows [--flow F]\n\
~ seeds\nunread=> Words \
usage: dccp_bridge capture | unwrap | seed --seed S --events E | seeds --first F --seeds N --events E | frames --flow F --side server|client | json [--payload] | ladder [--flow F] | windows [--flow F]\n\
~ seeds,--first,1,--seeds,1\nunread=> Words \
usage: dccp_bridge capture | unwrap | seed --seed S --events E | seeds --first F --seeds N --events E | frames --flow F --side server|client | json [--payload] | ladder [--flow F] | windows [--flow F]\n\
~ seeds,--seeds,1,--events,1\nunread=> Words \
usage: dccp_bridge capture | unwrap | seed --seed S --events E | seeds --first F --seeds N --events E | frames --flow F --side server|client | json [--payload] | ladder [--flow F] | windows [--flow F]\n\
~ seeds,--first,1,--seeds,0,--events,1\nunread=> Words \
usage: dccp_bridge capture | unwrap | seed --seed S --events E | seeds --first F --seeds N --events E | frames --flow F --side server|client | json [--payload] | ladder [--flow F] | windows [--flow F]\n\
~ seeds,--first,1,--seeds,100001,--events,1\nunread=> Words \
usage: dccp_bridge capture | unwrap | seed --seed S --events E | seeds --first F --seeds N --events E | frames --flow F --side server|client | json [--payload] | ladder [--flow F] | windows [--flow F]\n\
~ seeds,--first,1,--seeds,1,--events,4097\nunread=> Words \
usage: dccp_bridge capture | unwrap | seed --seed S --events E | seeds --first F --seeds N --events E | frames --flow F --side server|client | json [--payload] | ladder [--flow F] | windows [--flow F]\n\
~ seeds,--first,18446744073709551615,--seeds,2,--events,1\nunread=> Words \
usage: dccp_bridge capture | unwrap | seed --seed S --events E | seeds --first F --seeds N --events E | frames --flow F --side server|client | json [--payload] | ladder [--flow F] | windows [--flow F]\n\
~ seeds,--first,1,--seeds,1,--events,1,--workers,1\nunread=> Words \
usage: dccp_bridge capture | unwrap | seed --seed S --events E | seeds --first F --seeds N --events E | frames --flow F --side server|client | json [--payload] | ladder [--flow F] | windows [--flow F]\n\
~ seeds,--first,1,--first,1,--seeds,1,--events,1\nunread=> Words \
usage: dccp_bridge capture | unwrap | seed --seed S --events E | seeds --first F --seeds N --events E | frames --flow F --side server|client | json [--payload] | ladder [--flow F] | windows [--flow F]\n\
~ --seed,1,--events,1\nunread=> Words \
usage: dccp_bridge capture | unwrap | seed --seed S --events E | seeds --first F --seeds N --events E | frames --flow F --side server|client | json [--payload] | ladder [--flow F] | windows [--flow F]\n\
~ \nunread=> Words \
usage: dccp_bridge capture | unwrap | seed --seed S --events E | seeds --first F --seeds N --events E | frames --flow F --side server|client | json [--payload] | ladder [--flow F] | windows [--flow F]\n\
~ walk\nunread=> Words \
usage: dccp_bridge capture | unwrap | seed --seed S --events E | seeds --first F --seeds N --events E | frames --flow F --side server|client | json [--payload] | ladder [--flow F] | windows [--flow F]\n\
~ Capture\nunread=> Words \
usage: dccp_bridge capture | unwrap | seed --seed S --events E | seeds --first F --seeds N --events E | frames --flow F --side server|client | json [--payload] | ladder [--flow F] | windows [--flow F]\n\
~ capture,capture\nunread=> Words \
usage: dccp_bridge capture | unwrap | seed --seed S --events E | seeds --first F --seeds N --events E | frames --flow F --side server|client | json [--payload] | ladder [--flow F] | windows [--flow F]\n\
~ ladder,transcript\nunread=> Words \
usage: dccp_bridge capture | unwrap | seed --seed S --events E | seeds --first F --seeds N --events E | frames --flow F --side server|client | json [--payload] | ladder [--flow F] | windows [--flow F]\n\
~ ladder,--flow\nunread=> Words \
usage: dccp_bridge capture | unwrap | seed --seed S --events E | seeds --first F --seeds N --events E | frames --flow F --side server|client | json [--payload] | ladder [--flow F] | windows [--flow F]\n\
~ ladder,--flow,0\nunread=> Words \
usage: dccp_bridge capture | unwrap | seed --seed S --events E | seeds --first F --seeds N --events E | frames --flow F --side server|client | json [--payload] | ladder [--flow F] | windows [--flow F]\n\
~ ladder,--flow=18446744073709551616\nunread=> Words \
usage: dccp_bridge capture | unwrap | seed --seed S --events E | seeds --first F --seeds N --events E | frames --flow F --side server|client | json [--payload] | ladder [--flow F] | windows [--flow F]\n\
~ ladder,--side,1\nunread=> Words \
usage: dccp_bridge capture | unwrap | seed --seed S --events E | seeds --first F --seeds N --events E | frames --flow F --side server|client | json [--payload] | ladder [--flow F] | windows [--flow F]\n\
~ ladder,--flow,1,2\nunread=> Words \
usage: dccp_bridge capture | unwrap | seed --seed S --events E | seeds --first F --seeds N --events E | frames --flow F --side server|client | json [--payload] | ladder [--flow F] | windows [--flow F]\n\
~ windows,schedule\nunread=> Words \
usage: dccp_bridge capture | unwrap | seed --seed S --events E | seeds --first F --seeds N --events E | frames --flow F --side server|client | json [--payload] | ladder [--flow F] | windows [--flow F]\n\
~ windows,--flow=0\nunread=> Words \
usage: dccp_bridge capture | unwrap | seed --seed S --events E | seeds --first F --seeds N --events E | frames --flow F --side server|client | json [--payload] | ladder [--flow F] | windows [--flow F]\n\
~ show\n00=> Words \
usage: dccp_bridge capture | unwrap | seed --seed S --events E | seeds --first F --seeds N --events E | frames --flow F --side server|client | json [--payload] | ladder [--flow F] | windows [--flow F]\n";

#[test]
fn calls_of_the_bridge_in_pieces(rt: HostRuntime) -> Result<(), Fail> {
    cases_come(&rt, rt.alloc(), (Tool::Bridge, Way::InPieces), CALLS)?;
    cases_come(&rt, rt.alloc(), (Tool::Bridge, Way::InPieces), MORE_CALLS)
}

#[test]
fn words_of_the_bridge(rt: HostRuntime) -> Result<(), Fail> {
    cases_come(&rt, rt.alloc(), (Tool::Bridge, Way::Unread), WORDS)
}
