//! Examples in one text: a row each, by what they are about.

use crate::examples::example;
use lf_core::OutOfMemory;
use std::alloc::Global;
use std::test::Fail;
use std::thread::Threads;

/// The words, the input, the status and what `out` and `err` get, parted by `¦`. A `¶` is a line feed (between two
/// words too), a `␍` a carriage return, and a `⇥` a tab.
const EXAMPLES: &str = r##"
read¶apache¶%h %s %B¦10.0.0.1 200 512¶¦0¦["10.0.0.1",200,512]¶¦
read¶apache¶%h %s %B¦¦0¦¦
read¶apache¶%h %s %B¦¶¦3¦¦unread 1¶
read¶apache¶%s %s¦200 404¶¦0¦[200,404]¶¦
read¶apache¶%B¦9223372036854775807¶9223372036854775808¶00¶¦3¦[9223372036854775807]¶¦unread 2¶unread 3¶
read¶apache¶%h %s %B¦a\"b - 1¶\\ 999 0¦0¦["a\"b",null,1]¶["\\",999,0]¶¦
read¶apache¶100%% %h¦100% a¶100%  b¶¦3¦["a"]¶¦unread 2¶
read¶apache¶%s%%%s¦200%404¶¦0¦[200,404]¶¦
read¶apache¶<%s> [%B]!¦<200> [7]!¶¦0¦[200,7]¶¦
read¶apache¶%%%%¦%%¶%¶¦3¦[]¶¦unread 2¶
read¶apache¶%s¦200␍¶#¶-¶¦3¦[null]¶¦unread 1¶unread 2¶
read¶apache¶%h¦-¶z¶é¶¦3¦[null]¶["z"]¶¦unread 3¶
read¶apache¶no slot¦no slot¶¦0¦[]¶¦
read¶apache¶%B%s¦5-¶12200¶¦0¦[5,null]¶[12,200]¶¦
read¶apache¶%h\t%q¦a⇥?b¶⇥¶¦3¦["a","?b"]¶¦unread 2¶
read¶apache¶%h¦a¶b¦0¦["a"]¶["b"]¶¦
read¶apache¶%r¦a¶¶b␍¦3¦["a"]¶[""]¶¦unread 3¶
read¶apache¶%h¦¶¶a¶¶¦3¦["a"]¶¦unread 1¶unread 2¶unread 4¶
gen¶apache¶%X¶7¶50¦200¶¦0¦records 50 read 50 bytes 100¶¦
gen¶apache¶%X¶7¶50¶--jobs¶64¦200¶¦0¦records 50 read 50 bytes 100¶¦
gen¶apache¶%X¶7¶1024¦200¶¦0¦records 1024 read 1024 bytes 2048¶¦
gen¶apache¶%X¶7¶1025¦200¶¦0¦records 1025 read 1025 bytes 2050¶¦
gen¶iis¶time¶1¶3¦200¶¦0¦records 3 read 3 bytes 30¶¦
gen¶apache¶%X¶7¶0¦200¶¦0¦records 0 read 0 bytes 0¶¦
gen¶apache¶%B¶0¶1¦200¶¦0¦records 1 read 1 bytes 7¶¦
gen¶apache¶%h %>s %b¶5¶9¦200¶¦0¦records 9 read 9 bytes 146¶¦
gen¶iis¶date time sc-status¶18446744073709551615¶9¦200¶¦0¦records 9 read 9 bytes 224¶¦
gen¶haproxy¶%{+Q}r %ST¶2¶9¦200¶¦0¦records 9 read 9 bytes 110¶¦
gen¶nginx¶$remote_addr [$time_local] "$request" $status¶9¶9¦200¶¦0¦records 9 read 9 bytes 432¶¦
gen¶apache¶no slot¶3¶7¦200¶¦0¦records 7 read 7 bytes 56¶¦
gen¶apache¶%h¶1¶1¶--narrow¶x¦200¶¦2¦¦logfmt: source narrowing: Syntax at 0¶
gen¶apache¶%Z¶1¶1¦200¶¦2¦¦logfmt: source format: UnknownName at 0¶
gen¶apache¶%s¶18446744073709551616¶1¦200¶¦2¦¦logfmt: bad command line¶
gen¶w3c¶cs-uri¶1¶5¦200¶¦2¦¦logfmt: note line: ["#"]¶
gen¶apache¶%B%D¶1¶5¦200¶¦1¦¦ambiguous¶line "110"¶first [1,10]¶second [11,0]¶
gen¶apache¶%{A}i¶1¶5¶--narrow¶s1:len 0..600¦200¶¦7¦¦logfmt: size 8419 over 8192¶
show¶apache¶%h¶--narrow¶s1:present¦200¶¦0¦s1 %h text dash¶¦
read¶apache¶%s ¶--narrow¶x¦200¶¦2¦¦logfmt: source narrowing: Syntax at 0¶
check¶iis¶date¶--narrow¶s1:present¦200¶¦0¦readable 1¶¦
¦200¶¦2¦¦logfmt: bad command line¶
read¦200¶¦2¦¦logfmt: bad command line¶
read¶apache¦200¶¦2¦¦logfmt: bad command line¶
read¶apache¶%h¶more¦200¶¦2¦¦logfmt: bad command line¶
read¶apache¶%B¶--jobs¶0¦200¶¦2¦¦logfmt: bad command line¶
read¶apache¶%B¶--jobs¶65¦200¶¦2¦¦logfmt: bad command line¶
read¶apache¶%B¶--jobs¶2¶--jobs¶2¦200¶¦2¦¦logfmt: bad command line¶
show¶apachee¶%B¦200¶¦2¦¦logfmt: bad command line¶
check¶apache¶%h %s¦1-¶¦0¦readable 2¶¦
check¶apache¶no slot¦1-¶¦0¦readable 0¶¦
check¶apache¶%s%B%q¦1-¶¦0¦readable 3¶¦
check¶apache¶%B%D¦1-¶¦1¦ambiguous¶line "110"¶first [1,10]¶second [11,0]¶¦
check¶apache¶%U%q¦1-¶¦1¦ambiguous¶line " ?"¶first [" ","?"]¶second [" ?",""]¶¦
read¶apache¶%B%D¦1-¶¦1¦¦ambiguous¶line "110"¶first [1,10]¶second [11,0]¶
check¶apache¶¦200¶¦2¦¦logfmt: source format: EmptyFormat at 0¶
read¶apache¶%{Referer¦200¶¦2¦¦logfmt: source format: Unclosed at 0¶
write¶apache¶%h\nx¦200¶¦2¦¦logfmt: source format: LineBreak at 2¶
show¶apache¶%Z¦200¶¦2¦¦logfmt: source format: UnknownName at 0¶
check¶apache¶a %¦200¶¦2¦¦logfmt: source format: Unclosed at 2¶
read¶apache¶%20h¦200¶¦2¦¦logfmt: source format: BadFlags at 0¶
write¶apache¶%!h¦200¶¦2¦¦logfmt: source format: BadFlags at 0¶
show¶apache¶%{}i¦200¶¦2¦¦logfmt: source format: BadName at 0¶
check¶apache¶%{x}B¦200¶¦2¦¦logfmt: source format: BadName at 0¶
read¶apache¶%h %i¦200¶¦2¦¦logfmt: source format: BadName at 3¶
write¶apache¶"%{A}i" %B¦["a\"b",9]¶["a"]¶["a",-1]¶x¶¦3¦"a\"b" 9¶¦bad 2 WrongCount 1¶bad 3 WrongValue s2¶bad 4 NotJson¶
write¶apache¶%u %s¦¦0¦¦
write¶apache¶%u %s¦[null,null]¦0¦- -¶¦
write¶apache¶%u¦¶ [ {"hex":"0aFf"} ]␍¶¦3¦\n\xff¶¦bad 1 NotJson¶
write¶apache¶%u¦["-"]¶[""]¶[7]¶¦3¦¦bad 1 WrongValue s1¶bad 2 WrongValue s1¶bad 3 WrongValue s1¶
write¶apache¶%b%%%X¦[0,"+"]¶[9223372036854775807,"X"]¶[1,"XX"]¶¦3¦-%+¶9223372036854775807%X¶¦bad 3 WrongValue s2¶
write¶apache¶a¦[]¶{}¶¦3¦a¶¦bad 2 NotJson¶
write¶apache¶%B¦#¶[1]¶¦3¦1¶¦bad 1 NotJson¶
show¶apache¶%400,501{Ref}i %q¦¦0¦s1 %400,501{Ref}i text dash¶s2 %q text no¶¦
show¶apache¶no slot¦¦0¦¦
check¶apache¶%h %l %u %t "%r" %>s %b¦¦0¦readable 7¶¦
read¶apache¶%h %l %u %t "%r" %>s %b "%{Referer}i" "%{User-agent}i"¦10.0.0.1 - - [10/Oct/2000:13:55:36 -0700] "GET / HTTP/1.0" 200 - "-" "a\"b\xe2"¶¦0¦["10.0.0.1",null,null,"2000-10-10T13:55:36.000-07:00","GET / HTTP/1.0",200,0,null,{"hex":"612262e2"}]¶¦
read¶apache¶%h %l %u %t "%r" %>s %b "%{Referer}i" "%{User-agent}i"¦10.0.0.1 - - [10/Oct/2000:13:55:36 -0700] "GET / HTTP/1.0" 200 - "-" "caf\xc3\xa9"¶¦0¦["10.0.0.1",null,null,"2000-10-10T13:55:36.000-07:00","GET / HTTP/1.0",200,0,null,"café"]¶¦
read¶apache¶%t¦[29/Feb/2000:00:00:00 +0000]¶[29/Feb/1900:00:00:00 +0000]¶[29/Feb/2000:00:00:00 -0000]¶¦3¦["2000-02-29T00:00:00.000+00:00"]¶¦unread 2¶unread 3¶
show¶apache¶%h %>s %t¦¦0¦s1 %h text dash¶s2 %>s number dash¶s3 %t moment no¶¦
write¶apache¶%t¦["2000-10-10T13:55:36.000-07:00"]¶["0000-01-01T00:00:00.000+00:00"]¶["2000-10-10T13:55:36.000+24:00"]¶["2000-10-10T13:55:36.001-07:00"]¶¦3¦[10/Oct/2000:13:55:36 -0700]¶¦bad 2 WrongValue s1¶bad 3 WrongValue s1¶bad 4 WrongValue s1¶
check¶apache¶%t%t¦¦0¦readable 2¶¦
check¶nginx-none¶$http_a $http_b¦¦1¦ambiguous¶line "  "¶first [null," "]¶second [" ",null]¶¦
check¶nginx¶a$ b¦¦2¦¦logfmt: source format: BadName at 1¶
write¶nginx¶"$request" $status¦["a\"b",9]¶["a"]¶["a",2000]¶x¶¦3¦"a\x22b" 009¶¦bad 2 WrongCount 1¶bad 3 WrongValue s2¶bad 4 NotJson¶
read¶nginx¶$request_time¦0.005¶1.5¶01.000¶¦3¦[5]¶¦unread 2¶unread 3¶
show¶nginx-json¶$time_iso8601 $status $http_a $pipe¦¦0¦s1 $time_iso8601 moment no¶s2 $status number no¶s3 $http_a text blank¶s4 $pipe text no¶¦
read¶nginx-json¶{"a":"$http_a","t":"$time_iso8601"}¦{"a":"x\"\u0001","t":"2000-10-10T13:55:36-07:00"}¶{"a":"","t":"2000-10-10T13:55:36-07:00"}¶¦0¦["x\"\u0001","2000-10-10T13:55:36.000-07:00"]¶[null,"2000-10-10T13:55:36.000-07:00"]¶¦
read¶nginx¶$remote_addr - $remote_user [$time_local] "$request" $status $body_bytes_sent "$http_referer" "$http_user_agent"¦10.0.0.1 - - [10/Oct/2000:13:55:36 -0700] "GET / HTTP/1.0" 200 612 "-" "a\x22b\xE2"¶¦0¦["10.0.0.1",null,"2000-10-10T13:55:36.000-07:00","GET / HTTP/1.0",200,612,null,{"hex":"612262e2"}]¶¦
check¶nginx-directive¶log_format m escape=json '{"a":"$http_a"}';¦¦0¦readable 1¶¦
check¶nginx-directive¶log_format m escape=xml '{"a":"$http_a"}';¦¦2¦¦logfmt: source format: BadFlags at 13¶
read¶nginx-directive¶log_format m '$status' " $bytes_sent";¦200 12¶20 1¶¦3¦[200,12]¶¦unread 2¶
write¶nginx-directive¶log_format m escape=none '$http_a';¦["a\u0009b"]¶[null]¶["a\nb"]¶¦3¦a⇥b¶¶¦bad 3 WrongValue s1¶
show¶nginx-directive¶log_format m '$msec ' 'a$ b';¦¦2¦¦logfmt: source format: BadName at 24¶
read¶haproxy¶%{+X}cp¦0050¶1F90¶50¶1f90¶¦3¦[80]¶[8080]¶¦unread 3¶unread 4¶
read¶haproxy¶%{+Q}r¦"GET /a#22b"¶""¶¦0¦["GET /a\"b"]¶[null]¶¦
write¶haproxy¶%hr %{+E}HU¦["a\nb|","x]"]¶["",null]¶¦0¦{a|b#7C} x\]¶{} -¶¦
show¶haproxy¶%ci %{+Q}b %t %hr %ST¦¦0¦s1 %ci text dash¶s2 %b text blank¶s3 %t moment no¶s4 %hr text no¶s5 %ST number no¶¦
read¶haproxy¶%ci:%cp [%tr] %ft %b/%s %TR/%Tw/%Tc/%Tr/%Ta %ST %B %CC %CS %tsc %ac/%fc/%bc/%sc/%rc %sq/%bq %hr %hs %{+Q}r¦10.0.1.2:33317 [06/Feb/2009:12:14:14.655] http-in static/srv1 10/0/30/69/109 200 2750 - - ---- 1/1/1/1/0 0/0 {1wt.eu} {} "GET /index.html HTTP/1.1"¶¦0¦["10.0.1.2",33317,"2009-02-06T12:14:14.655+00:00","http-in","static","srv1",10,0,30,69,109,200,2750,null,null,"----",1,1,1,1,"0",0,0,"1wt.eu","","GET /index.html HTTP/1.1"]¶¦
check¶envoy¶"%REQ(A)%" "%REQ(B)%"¦¦1¦ambiguous¶line "\"\" \" \"\""¶first [""," \""]¶second ["\" ",""]¶¦
read¶envoy¶[%START_TIME%] %RESPONSE_CODE% %REQ(:METHOD)%¦[2016-04-15T20:17:00.310Z] 204 POST¶[2016-04-15T20:17:00Z] 204 POST¶¦3¦["2016-04-15T20:17:00.310+00:00",204,"POST"]¶¦unread 2¶
write¶envoy¶%REQ(A):3% %DURATION%¦["abc",1]¶["abcd",1]¶[null,null]¶¦3¦abc 1¶- -¶¦bad 2 WrongValue s1¶
show¶envoy¶%START_TIME% %REQ(A?:PATH):12%¦¦0¦s1 %START_TIME% moment no¶s2 %REQ(A?:PATH):12% text dash¶¦
check¶w3c¶cs-uri¦¦2¦¦logfmt: note line: ["#"]¶
read¶w3c¶date time sc-status cs(Referer)¦#Fields: date time sc-status cs(Referer)¶2000-10-10 20:55:36 200 "a""b"␍¶2000-10-10 24:00:00 200 -¶¦3¦["2000-10-10","20:55:36",200,"a\"b"]¶¦unread 3¶
show¶w3c¶#Fields: date time bytes¦¦0¦s1 date day dash¶s2 time clock dash¶s3 bytes number dash¶¦
write¶w3c¶date time¦["2000-10-10","20:55:36"]¶["2000-02-30","20:55:36"]¶[null,null]¶¦3¦2000-10-10 20:55:36¶- -¶¦bad 2 WrongValue s1¶
read¶iis¶date time¦#Fields: date time␍¶2000-10-10 20:55:36␍¶2000-10-10 20:55:37¶2000-10-10 20:55:38¦0¦["2000-10-10","20:55:36"]¶["2000-10-10","20:55:37"]¶["2000-10-10","20:55:38"]¶¦
check¶iis¶sc-status cs(User-Agent)¦¦1¦ambiguous¶line "- +"¶first [null," "]¶second [null,"+"]¶¦
read¶iis¶sc-status cs(User-Agent)¦200 a␍¶¦1¦¦ambiguous¶line "- +"¶first [null," "]¶second [null,"+"]¶
write¶iis¶date sc-status¦["2000-10-10",200]¶[null,null]¶¦0¦2000-10-10 200␍¶- -␍¶¦
show¶iis¶cs-uri-stem sc-bytes¦¦0¦s1 cs-uri-stem text dash¶s2 sc-bytes number dash¶¦
read¶apache¶%U¦a\nb¶a\x0ab¶\xff¶¦3¦["a\nb"]¶[{"hex":"ff"}]¶¦unread 2¶
check¶iis¶sc-status cs(User-Agent)¶--narrow¶s2:not +¦200 a␍¶¦0¦readable 2¶¦
read¶iis¶sc-status cs(User-Agent)¶--narrow¶s2:not +¦200 a+b␍¶200 a b␍¶¦3¦[200,"a b"]¶¦unread 2¶
read¶iis¶date time s-ip cs-method cs-uri-stem cs-uri-query s-port cs-username c-ip cs(User-Agent) cs(Referer) sc-status sc-substatus sc-win32-status time-taken¶--narrow¶*:not +¦2000-10-10 20:55:36 10.0.0.1 GET /a - 80 - 10.0.0.2 Mozilla/5.0+(x) - 200 0 0 15␍¶¦0¦["2000-10-10","20:55:36","10.0.0.1","GET","/a",null,80,null,"10.0.0.2","Mozilla/5.0 (x)",null,200,0,0,15]¶¦
check¶apache¶%{A}i¶--narrow¶s1:len 0..600¦¦7¦¦logfmt: size 8419 over 8192¶
check¶apache¶%B¶--narrow¶s1:range -5..-1¦¦2¦¦logfmt: source narrowing: Empty s1¶
check¶apache¶%B¶--narrow¶s2:present¦¦2¦¦logfmt: source narrowing: NoSlot s2¶
check¶apache¶%B¶--narrow¶s1:not +¦¦2¦¦logfmt: source narrowing: WrongKind s1¶
check¶apache¶%B¶--narrow¶s1;¦¦2¦¦logfmt: source narrowing: Syntax at 2¶
check¶apache¶%h%u¶--narrow¶s1:len 1..1¦¦0¦readable 2¶¦
check¶envoy¶[%START_TIME%] "%REQ(:METHOD)% %REQ(X-ENVOY-ORIGINAL-PATH?:PATH)% %PROTOCOL%" %RESPONSE_CODE% %RESPONSE_FLAGS% %BYTES_RECEIVED% %BYTES_SENT% %DURATION% %RESP(X-ENVOY-UPSTREAM-SERVICE-TIME)% "%REQ(X-FORWARDED-FOR)%" "%REQ(USER-AGENT)%" "%REQ(X-REQUEST-ID)%" "%REQ(:AUTHORITY)%" "%UPSTREAM_HOST%"¶--narrow¶*:not "¦¦0¦readable 15¶¦
read¶envoy¶[%START_TIME%] "%REQ(:METHOD)% %REQ(X-ENVOY-ORIGINAL-PATH?:PATH)% %PROTOCOL%" %RESPONSE_CODE% %RESPONSE_FLAGS% %BYTES_RECEIVED% %BYTES_SENT% %DURATION% %RESP(X-ENVOY-UPSTREAM-SERVICE-TIME)% "%REQ(X-FORWARDED-FOR)%" "%REQ(USER-AGENT)%" "%REQ(X-REQUEST-ID)%" "%REQ(:AUTHORITY)%" "%UPSTREAM_HOST%"¶--narrow¶*:not "¦[2016-04-15T20:17:00.310Z] "POST /api/v1/locations HTTP/2" 204 - 154 0 226 100 "10.0.35.28" "nsq2http" "cc21d9b0-cf5c-432b-8c7e-98aeb7988cd2" "locations" "tcp://10.0.2.1:80"¶¦0¦["2016-04-15T20:17:00.310+00:00","POST","/api/v1/locations","HTTP/2",204,null,154,0,226,"100","10.0.35.28","nsq2http","cc21d9b0-cf5c-432b-8c7e-98aeb7988cd2","locations","tcp://10.0.2.1:80"]¶¦
read¶apache¶%{A}ia%{B}i¶--narrow¶s1:only ab;s1:present;s2:only ab;s2:present;s2:len 17..17¦babbbbbbbbbbbbbbbbb¶babbbbbbbbbbbbbbbb¶¦3¦["b","bbbbbbbbbbbbbbbbb"]¶¦unread 2¶
read¶apache¶%B %s¶--narrow¶s1:range 1..10;s2:present;s1:range 5..20¦5 200¶4 200¶10 200¶11 200¶7 -¶¦3¦[5,200]¶[10,200]¶¦unread 2¶unread 4¶unread 5¶
write¶apache¶%h %s¶--narrow¶s1:len ..3¦¦2¦¦logfmt: source narrowing: Syntax at 7¶
write¶apache¶%h %s¶--narrow¶s1:len 0..3;s2:range 200..299¦["abc",200]¶["abcd",200]¶["abc",300]¶[null,null]¶¦3¦abc 200¶- -¶¦bad 2 WrongValue s1¶bad 3 WrongValue s2¶
read¶apache¶%B%¶--narrow¶x¦1¶¦2¦¦logfmt: source format: Unclosed at 2¶
check¶apache¶%{A}i¶--narrow¶s1:len 0..400;s2:present¦¦2¦¦logfmt: source narrowing: NoSlot s2¶
check¶iis¶cs-method sc-status¶--narrow¶s1:not #¦¦0¦readable 2¶¦
check¶iis¶cs-method sc-status¶--narrow¶s2:present¦¦2¦¦logfmt: note line: ["#",0]¶
show¶iis¶date cs(Referer)¶--narrow¶*:only a;*:present¦¦0¦s1 date day dash¶s2 cs(Referer) text dash¶¦
read¶nginx¶$a¶--narrow¶¦1¶¦2¦¦logfmt: source narrowing: Syntax at 0¶
translate¶apache¶%t¶nginx¶$time_iso8601¶s1=s1¦[10/Oct/2000:13:55:36 -0700]¶¦0¦2000-10-10T13:55:36-07:00¶¦
translate¶apache¶%t¶w3c¶date time¶s1=date(utc(s1));s2=clock(utc(s1))¦[10/Oct/2000:13:55:36 -0700]¶¦0¦2000-10-10 20:55:36¶¦
translate¶apache¶%t¶iis¶date time¶s1=date(utc(s1));s2=clock(utc(s1))¦[10/Oct/2000:13:55:36 -0700]¶¦0¦2000-10-10 20:55:36␍¶¦
translate¶apache¶%t¶apache¶%B¶s1=epoch(s1)¦[10/Oct/2000:13:55:36 -0700]¶¦0¦971211336¶¦
translate¶apache¶%b¶apache¶%B¶s1=s1¦-¶¦0¦0¶¦
translate¶apache¶%s¶apache¶%s¶s1=s1¶--narrow-to¶s1:range 100..599¦999¶200¶-¶¦3¦200¶-¶¦unmapped 1 s1¶
translate¶apache¶%h %B¶apache¶%B¶s1=s1¦¦2¦¦logfmt: map: Untyped s1¶
translate¶apache¶%h %B¶apache¶%B¶s1=s3¦¦2¦¦logfmt: map: NoSlot s3¶
translate¶apache¶%h %B¶apache¶%B¶s1=s2;s1=s2¦¦2¦¦logfmt: map: Twice s1¶
translate¶apache¶%h %B¶apache¶%B¶¦¦2¦¦logfmt: map: Syntax at 0¶
translate¶apache¶%h %B¶apache¶%B %B¶s2=s2¦¦2¦¦logfmt: map: Unfilled s1¶
translate¶apache¶%h %l %u %t "%r" %>s %b "%{Referer}i" "%{User-agent}i"¶nginx¶$remote_addr - $remote_user [$time_local] "$request" $status $body_bytes_sent "$http_referer" "$http_user_agent"¶s1=s1;s2=s3;s3=s4;s4=s5;s5=or(s6,0);s6=s7;s7=s8;s8=s9¦10.0.0.1 - - [10/Oct/2000:13:55:36 -0700] "GET / HTTP/1.0" 200 - "-" "a\"b\xe2"¶¦0¦10.0.0.1 - - [10/Oct/2000:13:55:36 -0700] "GET / HTTP/1.0" 200 0 "-" "a\x22b\xE2"¶¦
translate¶apache¶%r¶nginx-none¶$request_method $request_uri¶s1=part(s1,1);s2=part(s1,2)¦GET /a HTTP/1.0¶GET¶¦3¦GET /a¶¦unmapped 2 s2¶
translate¶apache¶%t¶apache¶%t¶s1=utc(utc(utc(utc(utc(utc(utc(utc(utc(utc(utc(utc(utc(utc(utc(utc(s1))))))))))))))))¦¦0¦¦
translate¶apache¶%t¶apache¶%t¶s1=utc(utc(utc(utc(utc(utc(utc(utc(utc(utc(utc(utc(utc(utc(utc(utc(utc(s1)))))))))))))))))¦¦2¦¦logfmt: map: Syntax at 67¶
translate¶apache¶%h %s¶nginx¶$remote_addr $status¶s1=s1;s2=s2¦a 200¶b 999¶b -¶x¶¦3¦a 200¶b 999¶¦unmapped 3 s2¶unread 4¶
translate¶w3c¶date time cs-method¶apache¶%t %m¶s1=at(s1,s2);s2=s3¦#Fields: date time cs-method␍¶2000-10-10 20:55:36 GET␍¶x␍¶¦3¦[10/Oct/2000:20:55:36 +0000] GET¶¦unread 3¶
translate¶apache¶%Z¶apache¶%Y¶¶--narrow¶x¶--narrow-to¶y¦¦2¦¦logfmt: source format: UnknownName at 0¶
translate¶apache¶%h¶apache¶%Y¶¶--narrow¶x¶--narrow-to¶y¦¦2¦¦logfmt: source narrowing: Syntax at 0¶
translate¶apache¶%h¶apache¶%Y¶¶--narrow-to¶y¦¦2¦¦logfmt: target format: UnknownName at 0¶
translate¶apache¶%h¶apache¶%B¶¶--narrow-to¶s2:present¦¦2¦¦logfmt: target narrowing: NoSlot s2¶
translate¶apache¶%h¶apache¶%B¶¶--narrow-to¶y¦¦2¦¦logfmt: target narrowing: Syntax at 0¶
translate¶apache¶%B%D¶apache¶%B¶s1=¦¦2¦¦logfmt: map: Syntax at 3¶
translate¶apache¶%B%D¶apache¶%B¶s1=s1¦1-¶¦1¦¦ambiguous¶line "110"¶first [1,10]¶second [11,0]¶
translate¶apache¶%B¶apache¶%B%D¶s1=s1;s2=s1¦1¶¦0¦11¶¦
translate¶w3c¶cs-uri¶apache¶%B¶s1=1¦¦2¦¦logfmt: note line: ["#"]¶
translate¶apache¶%{A}i¶apache¶%B¶s1=1¶--narrow¶s1:len 0..600¦¦7¦¦logfmt: size 8419 over 8192¶
translate¶apache¶%B¶apache¶%B¶s1=s1¶--narrow¶s1:range 5..9¶--narrow-to¶s1:range 7..9¦4¶5¶8¶¦3¦8¶¦unread 1¶unmapped 2 s1¶
translate¶apache¶%h¶apache¶%h¦¦2¦¦logfmt: bad command line¶
check¶apache¶%h¶--dash¶two¦¦1¦ambiguous¶line "-"¶first [null]¶second ["-"]¶¦
check¶apache¶%200b¶--dash¶two¦¦1¦ambiguous¶line "-"¶first [null]¶second [0]¶¦
read¶apache¶%h¶--dash¶two¦-¶¦1¦¦ambiguous¶line "-"¶first [null]¶second ["-"]¶
gen¶apache¶%h¶1¶5¶--dash¶two¦¦1¦¦ambiguous¶line "-"¶first [null]¶second ["-"]¶
read¶apache¶%h¶--dash¶two¶--narrow¶s1:present¦-¶¦0¦["-"]¶¦
read¶apache¶%h¶--dash¶two¶--narrow¶s1:not \x2d¦-¶¦0¦[null]¶¦
read¶apache¶%h¶--narrow¶s1:present¶--dash¶one¦-¶¦3¦¦unread 1¶
show¶apache¶%h¶--dash¶two¦¦0¦s1 %h text dash-two¶¦
show¶apache¶%h¶--dash¶one¦¦0¦s1 %h text dash¶¦
show¶haproxy¶%ci %{+Q}b %t¶--dash¶two¦¦0¦s1 %ci text dash-two¶s2 %b text blank¶s3 %t moment no¶¦
check¶apache¶%h¶--narrow¶s1:only \x2d;s1:len 1..1;s1:present¦¦2¦¦logfmt: source narrowing: Empty s1¶
check¶apache¶%h¶--narrow¶s1:only \x2d;s1:len 1..1;s1:present¶--dash¶two¦¦0¦readable 1¶¦
read¶w3c¶cs(Referer)¶--dash¶two¦"-"¶-¶¦0¦["-"]¶[null]¶¦
show¶w3c¶cs(Referer) date¶--dash¶two¦¦0¦s1 cs(Referer) text dash-two¶s2 date day dash-two¶¦
write¶apache¶%h¶--dash¶two¦["-"]¶[null]¶¦0¦-¶-¶¦
translate¶apache¶%h¶apache¶%h¶s1=s1¶--dash¶two¶--narrow¶s1:present¦-¶a¶¦3¦a¶¦unmapped 1 s1¶
translate¶apache¶%h¶w3c¶cs(Referer)¶s1=s1¶--dash¶two¶--narrow¶s1:present¦-¶¦0¦"-"¶¦
check¶apache¶%h¶--dash¶three¦¦2¦¦logfmt: bad command line¶
check¶apache¶%Z¶--dash¶two¶--narrow¶x¦¦2¦¦logfmt: source format: UnknownName at 0¶
"##;

/// The text that a part of a row stands for.
fn text_of(alloc: Global, part: &str) -> Result<String, OutOfMemory> {
    let mut text = String::new(alloc);
    for c in part.chars() {
        match c {
            '¶' => text.push('\n')?,
            '␍' => text.push('\r')?,
            '⇥' => text.push('\t')?,
            _ => text.push(c)?,
        }
    }
    Ok(text)
}

/// A run as a row says.
fn row_example<R: Threads + Sync>(rt: &R, alloc: Global, row: &str) -> Result<(), Fail> {
    let mut parts = row.split('¦');
    let words = text_of(alloc, parts.next().unwrap_or(""))?;
    let input = text_of(alloc, parts.next().unwrap_or(""))?;
    let status = parts
        .next()
        .unwrap_or("")
        .parse::<u8>()
        .ok()
        .ok_or("no status")?;
    let out = text_of(alloc, parts.next().unwrap_or(""))?;
    let err = text_of(alloc, parts.next().unwrap_or(""))?;
    example(
        rt,
        alloc,
        words.as_str(),
        input.as_str(),
        status,
        out.as_str(),
        err.as_str(),
    )
}

#[test]
fn each_row(rt: HostRuntime) -> Result<(), Fail> {
    for row in EXAMPLES.lines() {
        if !row.is_empty() {
            row_example(&rt, rt.alloc(), row)?;
        }
    }
    Ok(())
}
