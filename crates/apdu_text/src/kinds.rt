// The fields of the service messages, one function for each record.
ghost use Rattle.std.specs.Prelude.{◌≤◌, length};
ghost use Rattle.apdu_text.specs.MessageText.{request_text, action_response_text, response_text, set_request_text, get_request_text, get_response_text};
ghost use Rattle.apdu_text.specs.Ink.{Writes};

use crate::parts::front;
use crate::pen::Pen;
use apdu::{ActionResponse, GetRequest, GetResponse, Request, Response, Row, SetRequest};

impl Pen<'_> {
    // Action or event request.
    pub(crate) fn request(&mut self, s: &[u8], m: Request, rows: &[Row])
        requires { length rows.now ≤ 32 }
        ensures { Writes (request_text s.now m rows.now) self.old self.new }
    {
        self.number(b" mode=", u64::from(m.mode));
        self.number(b" eid=", m.eid);
        self.number(b" type=", m.service);
        self.string_if(
            m.has_credentials,
            b" credentials=",
            s,
            m.credentials,
            m.credentials_length,
        );
        let own = front(rows, m.rows);
        self.container_if(
            m.has_parameter,
            b" parameter=",
            s,
            m.kind,
            m.n,
            m.start,
            own,
        );
        self.number_if(m.has_iid, b" iid=", m.iid);
    }

    pub(crate) fn action_response(&mut self, s: &[u8], m: ActionResponse, rows: &[Row])
        requires { length rows.now ≤ 32 }
        ensures { Writes (action_response_text s.now m rows.now) self.old self.new }
    {
        self.number(b" fill=", m.fill);
        self.number(b" eid=", m.eid);
        self.number_if(m.has_iid, b" iid=", m.iid);
        let own = front(rows, m.rows);
        self.container_if(
            m.has_parameter,
            b" parameter=",
            s,
            m.kind,
            m.n,
            m.start,
            own,
        );
        self.number_if(m.has_ret, b" ret=", m.ret);
    }

    // Event or set response.
    pub(crate) fn response(&mut self, m: Response)
        ensures { Writes (response_text m) self.old self.new }
    {
        self.number(b" fill=", m.fill);
        self.number(b" eid=", m.eid);
        self.number_if(m.has_iid, b" iid=", m.iid);
        self.number_if(m.has_ret, b" ret=", m.ret);
    }

    pub(crate) fn set_request(&mut self, s: &[u8], m: SetRequest, rows: &[Row])
        requires { length rows.now ≤ 32 }
        ensures { Writes (set_request_text s.now m rows.now) self.old self.new }
    {
        self.number(b" fill=", m.fill);
        self.number(b" mode=", u64::from(m.mode));
        self.number(b" eid=", m.eid);
        self.string_if(
            m.has_credentials,
            b" credentials=",
            s,
            m.credentials,
            m.credentials_length,
        );
        self.attributes_if(true, s, m.count, front(rows, m.rows));
        self.number_if(m.has_iid, b" iid=", m.iid);
    }

    pub(crate) fn get_request(&mut self, s: &[u8], m: GetRequest)
        ensures { Writes (get_request_text s.now m) self.old self.new }
    {
        self.number(b" fill=", m.fill);
        self.number(b" eid=", m.eid);
        self.string_if(
            m.has_credentials,
            b" credentials=",
            s,
            m.credentials,
            m.credentials_length,
        );
        self.number_if(m.has_iid, b" iid=", m.iid);
        self.list_if(m.has_ids, b" ids=", s, m.ids, m.count);
    }

    pub(crate) fn get_response(&mut self, s: &[u8], m: GetResponse, rows: &[Row])
        requires { length rows.now ≤ 32 }
        ensures { Writes (get_response_text s.now m rows.now) self.old self.new }
    {
        self.number(b" fill=", m.fill);
        self.number(b" eid=", m.eid);
        self.number_if(m.has_iid, b" iid=", m.iid);
        self.attributes_if(m.has_attributes, s, m.count, front(rows, m.rows));
        self.number_if(m.has_ret, b" ret=", m.ret);
    }
}
