//! Formats of nginx.

use crate::telling::{check_many, check_rows};
use lf_words::Front;
use std::test::Fail;

#[test]
fn first_faults_of_nginx(rt: HostRuntime) -> Result<(), Fail> {
    check_rows(
        &rt,
        rt.alloc(),
        Front::Nginx,
        "$ => BadName at 0
a$ b => BadName at 1
$$a => BadName at 0
$- => BadName at 0
${} => BadName at 0
a${a b} => BadName at 1
${$a} => BadName at 0
$status$ => BadName at 7
${a => Unclosed at 0
ab${x$ => Unclosed at 2
${$ => Unclosed at 0
 => EmptyFormat at 0
¶${ => LineBreak at 0
$¶ => BadName at 0
${a¶b} => BadName at 0
${a¶ => Unclosed at 0",
    )?;
    check_rows(&rt, rt.alloc(), Front::NginxJson, "a¶b$ => LineBreak at 1")?;
    check_rows(
        &rt,
        rt.alloc(),
        Front::NginxNone,
        "$a¶ => LineBreak at 2
 => EmptyFormat at 0",
    )
}

#[test]
fn variables_of_nginx(rt: HostRuntime) -> Result<(), Fail> {
    check_rows(
        &rt,
        rt.alloc(),
        Front::Nginx,
        "$remote_addr => [$remote_addr visible 1.. NginxHex Dash]
$server_addr => [$server_addr visible 1.. NginxHex Dash]
$server_protocol => [$server_protocol visible 1.. NginxHex Dash]
$request_method => [$request_method visible 1.. NginxHex Dash]
$scheme => [$scheme visible 1.. NginxHex Dash]
$request_id => [$request_id visible 1.. NginxHex Dash]
$host => [$host visible 1.. NginxHex Dash]
$hostname => [$hostname visible 1.. NginxHex Dash]
$server_name => [$server_name visible 0.. NginxHex Dash]
$remote_port => [$remote_port 0..65535 Raw Dash]
$server_port => [$server_port 0..65535 Raw Dash]
$status => [$status padded10 3 0..999 Raw No]
$body_bytes_sent => [$body_bytes_sent 0..9223372036854775807 Raw No]
$bytes_sent => [$bytes_sent 0..9223372036854775807 Raw No]
$connection => [$connection 0..9223372036854775807 Raw No]
$connection_requests => [$connection_requests 0..9223372036854775807 Raw No]
$request_length => [$request_length 0..9223372036854775807 Raw No]
$msec => [$msec fixed 0..9223372036854775807 Raw No]
$request_time => [$request_time fixed 0..9223372036854775807 Raw No]
$time_local => [$time_local clf Raw No]
$time_iso8601 => [$time_iso8601 iso Raw No]
$pipe => [$pipe words p|. Raw No]
$request => [$request any 0.. NginxHex Dash]
$remote_user => [$remote_user any 0.. NginxHex Dash]
$http_user_agent => [$http_user_agent any 0.. NginxHex Dash]
$Status => [$Status any 0.. NginxHex Dash]
$_9 => [$_9 any 0.. NginxHex Dash]",
    )
}

#[test]
fn other_escapes_of_nginx(rt: HostRuntime) -> Result<(), Fail> {
    check_rows(
        &rt,
        rt.alloc(),
        Front::NginxJson,
        "$remote_addr => [$remote_addr visible 1.. NginxJson Blank]
$server_name => [$server_name visible 0.. NginxJson Blank]
$remote_port => [$remote_port 0..65535 Raw Blank]
$status => [$status padded10 3 0..999 Raw No]
$request_time => [$request_time fixed 0..9223372036854775807 Raw No]
$pipe => [$pipe words p|. Raw No]
$request => [$request any 0.. NginxJson Blank]",
    )?;
    check_rows(
        &rt,
        rt.alloc(),
        Front::NginxNone,
        "$remote_addr => [$remote_addr visible 1.. Raw Blank]
$server_name => [$server_name visible 0.. Raw Blank]
$server_port => [$server_port 0..65535 Raw Blank]
$status => [$status padded10 3 0..999 Raw No]
$time_local => [$time_local clf Raw No]
$request => [$request header 0.. Raw Blank]",
    )
}

#[test]
fn literals_of_nginx(rt: HostRuntime) -> Result<(), Fail> {
    check_rows(
        &rt,
        rt.alloc(),
        Front::Nginx,
        "${status}1 => [$status padded10 3 0..999 Raw No]<1>
%x\\\\n\\\"é => <%x\\\\n\\\"é>
$pipe.${pipe}pipe => [$pipe words p|. Raw No]<.>[$pipe words p|. Raw No]<pipe>
}{a => <}{a>",
    )
}

#[test]
fn many_slots_of_nginx(rt: HostRuntime) -> Result<(), Fail> {
    check_many(
        &rt,
        rt.alloc(),
        Front::Nginx,
        "$pipe",
        "129  => TooManySlots at 640
129 $ => TooManySlots at 640
128 a${a => Unclosed at 641
128 a$b¶ => TooManySlots at 641",
    )
}

#[test]
fn faults_of_directives(rt: HostRuntime) -> Result<(), Fail> {
    check_rows(
        &rt,
        rt.alloc(),
        Front::NginxDirective,
        " => Unclosed at 0
   => Unclosed at 2
log_forma => Unclosed at 9
log_formaT m x; => BadName at 9
 x => BadName at 1
log_format => Unclosed at 10
log_format; => BadName at 10
log_format  ; => BadName at 12
log_format m => Unclosed at 12
log_format m\"x\"; => BadName at 12
log_format m=x; => BadName at 12
log_format m $a => Unclosed at 15
log_format m ;x => BadName at 14
log_format m;x => BadName at 13
log_format m; => EmptyFormat at 0
log_format m ;  => EmptyFormat at 0
log_format m escape=json; => EmptyFormat at 0
log_format m \"\"; => EmptyFormat at 0
log_format m ''  '' ; => EmptyFormat at 0
log_format m escape=\"json\"; => BadFlags at 13
log_format m escape=xml x; => BadFlags at 13
log_format m escape=js\\on x; => BadFlags at 13
log_format m escape=json\"x\"; => BadName at 24
log_format m escape=json x\"y\"; => BadName at 26
log_format m x\\y; => BadName at 14
log_format m \\x; => BadName at 13
log_format m \"x => Unclosed at 13
log_format m 'x\\' => Unclosed at 13
log_format m \"x\\ => Unclosed at 13
log_format m \"x\"  => Unclosed at 17
log_format m \"x\"y; => BadName at 16
log_format m \"x\";y => BadName at 17",
    )
}

#[test]
fn faults_in_strings(rt: HostRuntime) -> Result<(), Fail> {
    check_rows(
        &rt,
        rt.alloc(),
        Front::NginxDirective,
        "log_format m \"a\\nb\"; => LineBreak at 15
log_format m \"a\" \"$ b\"; => BadName at 18
log_format m 'ab' '$' ' x'; => BadName at 19
log_format m '${ab' ';'; => Unclosed at 14
log_format m \"a\\\"$\" \"\\t\"; => BadName at 17
log_format m $pipeé'x'; => BadName at 20
log_format m escape=none $a \"\\r\\n\"; => LineBreak at 31
log_format m 'a¶b'; => LineBreak at 15",
    )
}

#[test]
fn parts_of_directives(rt: HostRuntime) -> Result<(), Fail> {
    check_rows(
        &rt,
        rt.alloc(),
        Front::NginxDirective,
        "log_format m x escape=json escape=none; => <xescape=jsonescape=none>
log_format m escape=json escape=json; => <escape=json>
log_format m \"escape=json\" escape=xml; => <escape=jsonescape=xml>
log_format m '$pip' 'e' $status; => [$pipe words p|. Raw No][$status padded10 3 0..999 Raw No]
log_format m escape=none \"a\\\"b\\\\\\c\\t\" '${x}' y; => <a\"b\\\\c\t>[$x header 0.. Raw Blank]<y>
log_format m escape=json '{\"a\":\"$x\"}'; => <{\"a\":\">[$x any 0.. NginxJson Blank]<\"}>
log_format m escape=default é$x; => <é>[$x any 0.. NginxHex Dash]
log_format m-1.x_ \"'\" '\"' \"\\'\" ; => <'\"'>
\tlog_format\r¶m¶\tescape=json\r$x¶' ' ¶; \r¶ => [$x any 0.. NginxJson Blank]< >",
    )
}
