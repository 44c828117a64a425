//! Formats of HAProxy.

use crate::telling::{check_many, check_rows};
use lf_words::Front;
use std::test::Fail;

#[test]
fn items_of_haproxy(rt: HostRuntime) -> Result<(), Fail> {
    check_rows(
        &rt,
        rt.alloc(),
        Front::Haproxy,
        "%ci => [%ci visible 1.. HaHash Dash]
%fi => [%fi visible 1.. HaHash Dash]
%bi => [%bi visible 1.. HaHash Dash]
%si => [%si visible 1.. HaHash Dash]
%H => [%H visible 1.. HaHash Dash]
%HM => [%HM visible 1.. HaHash Dash]
%HV => [%HV visible 1.. HaHash Dash]
%f => [%f proxy 1.. HaHash Dash]
%ft => [%ft proxy 1.. HaHash Dash]
%b => [%b proxy 1.. HaHash Dash]
%s => [%s proxy 1.. HaHash Dash]
%HP => [%HP nospace 1.. HaHash Dash]
%HU => [%HU nospace 1.. HaHash Dash]
%ID => [%ID headerword 1.. Raw Dash]
%CC => [%CC headerword 1.. Raw Dash]
%CS => [%CS headerword 1.. Raw Dash]
%HQ => [%HQ nospace 0.. HaHash Dash]
%r => [%r any 0.. HaHash Dash]
%ts => [%ts visible 2..2 HaHash No]
%tsc => [%tsc visible 4..4 HaHash No]
%rc => [%rc counts 1.. HaHash No]
%hr => <{>[%hr any 0.. HaCapture No]<}>
%hs => <{>[%hs any 0.. HaCapture No]<}>
%cp => [%cp 0..65535 Raw No]
%fp => [%fp 0..65535 Raw Dash]
%bp => [%bp 0..65535 Raw Dash]
%sp => [%sp 0..65535 Raw Dash]
%Ts => [%Ts 0..4294967295 Raw No]
%rt => [%rt 0..4294967295 Raw No]
%pid => [%pid 0..4294967295 Raw No]
%ST => [%ST -1..999 Raw No]
%Ta => [%Ta -1..2147483647 Raw No]
%Tc => [%Tc -1..2147483647 Raw No]
%Td => [%Td -1..2147483647 Raw No]
%Th => [%Th -1..2147483647 Raw No]
%Ti => [%Ti -1..2147483647 Raw No]
%Tq => [%Tq -1..2147483647 Raw No]
%TR => [%TR -1..2147483647 Raw No]
%Tr => [%Tr -1..2147483647 Raw No]
%Tt => [%Tt -1..2147483647 Raw No]
%Tw => [%Tw -1..2147483647 Raw No]
%B => [%B 0..9223372036854775807 Raw No]
%U => [%U 0..9223372036854775807 Raw No]
%ac => [%ac 0..4294967295 Raw No]
%bc => [%bc 0..4294967295 Raw No]
%fc => [%fc 0..4294967295 Raw No]
%sc => [%sc 0..4294967295 Raw No]
%sq => [%sq 0..4294967295 Raw No]
%bq => [%bq 0..4294967295 Raw No]
%t => [%t ha Raw No]
%tr => [%tr ha Raw No]",
    )
}

#[test]
fn flags_act_on_their_rows(rt: HostRuntime) -> Result<(), Fail> {
    check_rows(
        &rt,
        rt.alloc(),
        Front::Haproxy,
        "%{+Q}ci => [%ci visible 1.. HaHash Blank quoted]
%{+E}ci => [%ci visible 1.. HaEscape Dash]
%{+X}ci => [%ci visible 1.. HaHash Dash]
%{+Q,+E}f => [%f proxy 1.. HaEscape Blank quoted]
%{+E}HP => [%HP headerword 1.. HaEscape Dash]
%{+Q}HU => [%HU nospace 1.. HaHash Blank quoted]
%{+Q}CC => [%CC headerword 1.. Raw Blank quoted]
%{+E}ID => [%ID headerword 1.. HaEscape Dash]
%{+E}HQ => [%HQ headerword 0.. HaEscape Dash]
%{+Q}HQ => [%HQ nospace 0.. HaHash Blank quoted]
%{+Q}r => [%r any 0.. HaHash Blank quoted]
%{+E}r => [%r header 0.. HaEscape Dash]
%{+Q,+E,+X}ts => [%ts visible 2..2 HaHash No]
%{+Q,+E,+X}tsc => [%tsc visible 4..4 HaHash No]
%{+Q,+E,+X}rc => [%rc counts 1.. HaHash No]
%{+Q,+E,+X}hr => <{>[%hr any 0.. HaCapture No]<}>
%{+Q,+E,+X}hs => <{>[%hs any 0.. HaCapture No]<}>
%{+X}cp => [%cp padded16 4 0..65535 Raw No]
%{+X}fp => [%fp padded16 4 0..65535 Raw Dash]
%{+Q,+E}sp => [%sp 0..65535 Raw Dash]
%{+X}bp => [%bp padded16 4 0..65535 Raw Dash]
%{+X}Ts => [%Ts padded16 4 0..4294967295 Raw No]
%{+X}rt => [%rt padded16 4 0..4294967295 Raw No]
%{+X}pid => [%pid padded16 4 0..4294967295 Raw No]
%{+Q,+E,+X}ST => [%ST -1..999 Raw No]
%{+Q,+E,+X}Ta => [%Ta -1..2147483647 Raw No]
%{+X}B => [%B 0..9223372036854775807 Raw No]
%{+X}ac => [%ac 0..4294967295 Raw No]
%{+Q,+E,+X}t => [%t ha Raw No]",
    )
}

#[test]
fn flags_hold_by_o_alone(rt: HostRuntime) -> Result<(), Fail> {
    check_rows(
        &rt,
        rt.alloc(),
        Front::Haproxy,
        "%{+X}cp/%cp => [%cp padded16 4 0..65535 Raw No]</>[%cp 0..65535 Raw No]
%{+X}o%cp/%fp => [%cp padded16 4 0..65535 Raw No]</>[%fp padded16 4 0..65535 Raw Dash]
%{+X}o%o%cp => [%cp padded16 4 0..65535 Raw No]
%{+X}o%{-X}cp%cp => [%cp 0..65535 Raw No][%cp padded16 4 0..65535 Raw No]
%{+X,+Q}o%{-X}o%cp%f => [%cp 0..65535 Raw No][%f proxy 1.. HaHash Blank quoted]
%{+E}o%{+Q}f%b => [%f proxy 1.. HaEscape Blank quoted][%b proxy 1.. HaEscape Dash]
%{+X,-X}cp%{-X,+X}cp => [%cp 0..65535 Raw No][%cp padded16 4 0..65535 Raw No]
%o%f => [%f proxy 1.. HaHash Dash]
%{+Q}o => EmptyFormat at 0
%o%{+X}o%o => EmptyFormat at 0",
    )
}

#[test]
fn first_faults_of_haproxy(rt: HostRuntime) -> Result<(), Fail> {
    check_rows(
        &rt,
        rt.alloc(),
        Front::Haproxy,
        " => EmptyFormat at 0
%{+Q => Unclosed at 0
a%{ => Unclosed at 1
%{}r => BadFlags at 0
ab%{Q}r => BadFlags at 2
%{+Q,}r => BadFlags at 0
%{+Q+E}r => BadFlags at 0
%{+Z}r => BadFlags at 0
%{+q}r => BadFlags at 0
%{+Q, +E}r => BadFlags at 0
% => BadName at 0
a%-b => BadName at 1
%{+X}% => BadName at 0
% %ci => BadName at 0
%ci%{-E}é => BadName at 3
%Z => UnknownName at 0
%ci %cix => UnknownName at 4
%oci => UnknownName at 0
%{+Q}t1 => UnknownName at 0
%CI => UnknownName at 0
%{%ci => Unclosed at 0
%{Z} => BadFlags at 0
%{Z}zz => BadFlags at 0
%Z%{ => UnknownName at 0
%{+Q}r%-%Z => BadName at 6
¶ => LineBreak at 0
%ci¶%Z => LineBreak at 3
%Z¶ => UnknownName at 0
%{+Q¶}r => BadFlags at 0
% ¶ => BadName at 0",
    )
}

#[test]
fn literals_of_haproxy(rt: HostRuntime) -> Result<(), Fail> {
    check_rows(
        &rt,
        rt.alloc(),
        Front::Haproxy,
        "    => < >
a   b%%  \\\"c => <a b% \\\"c>
  %ci    %cp  => < >[%ci visible 1.. HaHash Dash]< >[%cp 0..65535 Raw No]< >
a %o b => <a  b>
 %{+Q}o %f => <  >[%f proxy 1.. HaHash Blank quoted]
%hr%hs{ => <{>[%hr any 0.. HaCapture No]<}{>[%hs any 0.. HaCapture No]<}{>
{%hr} => <{{>[%hr any 0.. HaCapture No]<}}>
%%%% => <%%>
%%ci => <%ci>
[%tr] é => <[>[%tr ha Raw No]<] é>",
    )
}

#[test]
fn many_slots_of_haproxy(rt: HostRuntime) -> Result<(), Fail> {
    check_many(
        &rt,
        rt.alloc(),
        Front::Haproxy,
        "%f",
        "129  => TooManySlots at 256
129 %Z => TooManySlots at 256
128 -%{Q}f => BadFlags at 257
128   %hr¶ => TooManySlots at 258
128 %o%{+Q}o% => BadName at 264",
    )
}
